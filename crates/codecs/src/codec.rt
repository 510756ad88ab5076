// The packed forms of instructions, record entries and outlet entries.
mod instruction;
mod record;
mod sent;
mod truncated;
