// What is answered to the commands on programs and packed words.
ghost use Rattle.std.specs.Prelude.{◌≡◌, ◌++◌, IfOk, string_bytes, OnOk};
ghost use Rattle.codecs.specs.Reading.{read_program};
ghost use Rattle.console.specs.Lines.{instruction_line, listed, entry_line, image_lines, packed_lines, program_after};
ghost use Rattle.console.specs.ReplyTexts.{count_read, after_reading, program_reply};

use crate::entries::Image;
use crate::line::write_line;
use crate::packed_command::PackedCommand;
use codecs::program::Program;
use formats::instruction::Instruction;
use formats::refusal::ProgramRefusal;
use std::alloc::{AllocError, Global};
use text::refused::RefusedAt;
use text::show::Shown;

/// Answers the command: the line's end, and the lines after it. `program` is the accepted program.
pub fn answer(
    command: PackedCommand,
    program: &mut Option<Program>,
    out: &mut Vec<u8>,
) -> Result<(), AllocError>
    ensures lines { OnOk result (out.new.items ≡ out.old.items ++ packed_lines command program.old) }
    ensures after { program.new ≡ program_after command program.old }
{
    match command {
        PackedCommand::Program(bytes) => {
            let reply = program_reply(*out.allocator(), accept(bytes.as_slice(), program))?;
            write_line(out, reply.as_str())
        }
        PackedCommand::List => list(program, out),
        PackedCommand::One(kind, bytes) => {
            let reply = Image::new(kind, bytes.as_slice()).reply_at(*out.allocator(), 0)?;
            write_line(out, reply.as_str())
        }
        PackedCommand::Image(kind, bytes) => { show_image(Image::new(kind, bytes.as_slice()), out) }
    }
}

// Reads a program, and answers how many instructions it has. A refused one leaves that which was accepted before.
fn accept(bytes: &[u8], program: &mut Option<Program>) -> Result<usize, ProgramRefusal>
    ensures value { result ≡ count_read (read_program bytes.now) }
    ensures after { program.new ≡ after_reading (read_program bytes.now) program.old }
{
    let accepted = Program::read(bytes)?;
    let count = accepted.len();
    *program = Some(accepted);
    Ok(count)
}

// The reply for a program that was read.
fn program_reply(heap: Global, read: Result<usize, ProgramRefusal>) -> Result<String, AllocError>
    ensures { IfOk result (λ s. string_bytes s ≡ program_reply read) }
{
    match read {
        Ok(count) => format!(in heap; "accepted {count}"),
        Err(refusal) => format!(in heap; "{}", RefusedAt(refusal)),
    }
}

// The accepted program: how many instructions it has, and a line for each.
fn list(program: &Option<Program>, out: &mut Vec<u8>) -> Result<(), AllocError>
    ensures { OnOk result (out.new.items ≡ out.old.items ++ listed program.now) }
{
    let Some(program) = program else {
        return write_line(out, "no program");
    };
    let instructions = program.as_slice();
    let head = format!(in *out.allocator(); "instructions {}", instructions.len())?;
    write_line(out, head.as_str())?;
    for (place, instruction) in instructions.iter().enumerate() {
        list_one(place, *instruction, out)?;
    }
    Ok(())
}

// The line of one instruction.
fn list_one(place: usize, instruction: Instruction, out: &mut Vec<u8>) -> Result<(), AllocError>
    ensures { OnOk result (out.new.items ≡ out.old.items ++ instruction_line place instruction) }
{
    let line = format!(in *out.allocator(); "  {place}  {}", Shown(instruction))?;
    write_line(out, line.as_str())
}

// How many entries and spare bytes an image has, and a line for each entry.
fn show_image(image: Image, out: &mut Vec<u8>) -> Result<(), AllocError>
    ensures { OnOk result (out.new.items ≡ out.old.items ++ image_lines image.entry.kind image.entry.bytes.now) }
{
    let entries = image.count();
    let head = format!(in *out.allocator(); "entries {entries} spare {}", image.spare())?;
    write_line(out, head.as_str())?;
    // By place, which is what the packed list takes.
    for place in 0..entries {
        show_one(image, place, out)?;
    }
    Ok(())
}

// The line of one entry.
fn show_one(image: Image, place: usize, out: &mut Vec<u8>) -> Result<(), AllocError>
    ensures { OnOk result (out.new.items ≡ out.old.items ++ entry_line image.entry.kind image.entry.bytes.now place) }
{
    let reply = image.reply_at(*out.allocator(), place)?;
    let line = format!(in *out.allocator(); "  {place}: {reply}")?;
    write_line(out, line.as_str())
}
