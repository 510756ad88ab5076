// A scenario that is read line by line, and what it prints.
use console::buffers::{MemoryBuffer, OutletBuffer};
use console::command::EngineCommand;
use console::console::{Console, EngineSetup, Next, write_reason, write_reply};
use console::line::write_line;
use console::reason::Reason;
use console::replies::{command_reply, made_reply};
use engine::engine::Hosted;
use engine::settings::Settings;
use memory::bytes::ByteMemory;
use memory::shared::Memory;
use memory::words::WordMemory;
use outlet::bytes::ByteOutlet;
use outlet::store::StoreOutlet;
use outlet::waiting::Outlet;
use std::io;
use std::io::{BufRead, BufReader, Read, Write};

// How many bytes of output are collected before they are written.
const FLUSH_AT: usize = 65_536;

// A form of outlet that stands on a buffer. The checker covers no call that hands one to generic code, so generic code makes it.
trait OutletForm<'b> {
    type Form: Outlet + Drop;

    fn make(buffer: &'b mut [u8]) -> Self::Form;
}

struct ByteForm;

impl<'b> OutletForm<'b> for ByteForm {
    type Form = ByteOutlet<'b>;

    fn make(buffer: &'b mut [u8]) -> ByteOutlet<'b> {
        ByteOutlet::new(buffer)
    }
}

// A scenario that is being played: where its lines come from, what it has set up, and its output.
#[derive(Drop)]
pub(crate) struct Scenario<'a, R: Read> {
    rt: &'a HostRuntime,
    reader: BufReader<R>,
    console: Console,
    // the line that is played
    line: Vec<u8>,
    // the output that is still to be written
    out: Vec<u8>,
    // how reading ended
    end: io::Result<()>,
}

impl<'a, R: Read + Drop> Scenario<'a, R> {
    // Plays a scenario from its beginning. The inner Err is a failed read, which ends it.
    pub(crate) fn play(rt: &'a HostRuntime, source: R) -> io::Result<io::Result<()>> {
        let heap = rt.alloc();
        let mut scenario = Scenario {
            rt,
            reader: BufReader::new(heap, source)?,
            console: Console::new(),
            line: Vec::new(heap),
            out: Vec::new(heap),
            end: Ok(()),
        };
        let mut setup = scenario.play_without_engine()?;
        // No `while`: a function has to end, and it is not known that input does.
        for _ in 0..u64::MAX {
            let Some(made) = setup else {
                break;
            };
            setup = scenario.play_engine(made)?;
        }
        scenario.flush()?;
        Ok(scenario.end)
    }

    // Writes the output that was collected.
    fn flush(&mut self) -> io::Result<()> {
        self.rt.stdout().write_all(self.out.as_slice())?;
        self.out.clear();
        Ok(())
    }

    // Reads the next line. Answers whether there is one.
    fn next_line(&mut self) -> io::Result<bool> {
        if self.out.len() >= FLUSH_AT || self.reader.buffer().is_empty() {
            self.flush()?;
        }
        self.line.clear();
        match self.reader.read_until(b'\n', &mut self.line) {
            Ok(count) => Ok(count > 0),
            Err(e) => {
                self.end = Err(e);
                Ok(false)
            }
        }
    }

    // Plays lines until one makes an engine, or the last. `answer` answers a command to an engine, by its line.
    fn play_lines<F>(&mut self, mut answer: F) -> io::Result<Option<EngineSetup>>
    where
        F: FnMut(EngineCommand, &[u8], &mut Vec<u8>) -> io::Result<()>,
        requires { F.IsAlwaysCallable answer }
    {
        // No `while`: a function has to end, and it is not known that input does.
        for _ in 0..u64::MAX {
            if !self.next_line()? {
                break;
            }
            let next = self.console.play_line(self.line.as_slice(), &mut self.out)?;
            match next {
                Next::Line => {}
                Next::Engine(command) => answer(command, self.line.as_slice(), &mut self.out)?,
                Next::Make(setup) => return Ok(Some(setup)),
            }
        }
        Ok(None)
    }

    // Plays lines before there is an engine.
    fn play_without_engine(&mut self) -> io::Result<Option<EngineSetup>> {
        self.play_lines(|_command, _line, out| Ok(write_reason(out, Reason::NoEngine)?))
    }

    // Plays lines on a new engine. Memory and outlet borrow their buffers, which are let go with it.
    fn play_engine(&mut self, setup: EngineSetup) -> io::Result<Option<EngineSetup>> {
        let EngineSetup {
            program,
            settings: read,
            memory,
            outlet,
        } = setup;
        let settings = Settings {
            program: &program,
            places: read.places.as_slice(),
            lines: read.lines,
        };
        match memory {
            MemoryBuffer::Words(mut words) => {
                let memory = WordMemory::new(words.as_mut_slice());
                self.play_memory(settings, memory, outlet)
            }
            MemoryBuffer::Bytes(mut bytes) => {
                let memory = ByteMemory::new(bytes.as_mut_slice());
                self.play_memory(settings, memory, outlet)
            }
        }
    }

    // The same over a memory.
    fn play_memory<M: Memory + Drop>(
        &mut self,
        settings: Settings<'_>,
        memory: M,
        outlet: OutletBuffer,
    ) -> io::Result<Option<EngineSetup>> {
        let checked = settings.check(memory.len());
        let reply = made_reply(self.rt.alloc(), checked, settings.places.len())?;
        write_line(&mut self.out, reply.as_str())?;
        match outlet {
            OutletBuffer::Store => self.play_outlet(settings, memory, StoreOutlet::new()),
            OutletBuffer::Bytes(mut bytes) => {
                self.play_buffer::<M, ByteForm>(settings, memory, bytes.as_mut_slice())
            }
        }
    }

    // The same with an outlet over a buffer.
    fn play_buffer<'b, M: Memory + Drop, F: OutletForm<'b>>(
        &mut self,
        settings: Settings<'_>,
        memory: M,
        buffer: &'b mut [u8],
    ) -> io::Result<Option<EngineSetup>> {
        self.play_outlet(settings, memory, F::make(buffer))
    }

    // Plays lines on an engine. Whatever ends that, the token is given back before the engine is let go.
    fn play_outlet<M: Memory + Drop, O: Outlet + Drop>(
        &mut self,
        settings: Settings<'_>,
        memory: M,
        outlet: O,
    ) -> io::Result<Option<EngineSetup>> {
        let mut hosted = Hosted::make(settings, memory, outlet);
        let next = self.play_with_engine(&mut hosted);
        let held = hosted.close();
        let setup = next?;
        if held && setup.is_none() {
            write_line(&mut self.out, "(end) give back -> given back")?;
        }
        Ok(setup)
    }

    // Plays lines, with the answers of an engine.
    fn play_with_engine<M: Memory, O: Outlet>(
        &mut self,
        hosted: &mut Hosted<M, O>,
    ) -> io::Result<Option<EngineSetup>> {
        let heap = self.rt.alloc();
        self.play_lines(|command, line, out| {
            let reply = command_reply(heap, hosted, command)?;
            Ok(write_reply(out, line, reply.as_str())?)
        })
    }
}
