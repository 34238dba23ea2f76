//! What a line of scenarios comes to.
use crate::faults::Trial;
use crate::hosts::{Plan, Watched, run_on};
use crate::images::{Way, ways_of};
use crate::outcomes::{push_status, status_text, tally_of};
use crate::program::Program;
use command_line::Status;
use command_words::file_of;
use memory_host::MemoryHost;
use scenario_values::{Asked, Telling, Trouble, Values, asked_of, push_sent, words_of};
use scenario_words::{Command, Head, Options, Wrong, command_of, halves, mode_of, options_of};
use std::alloc::{AllocError, Global};

/// The bytes of a page, where nothing else is said.
const PAGE: usize = 512;

/// How many bytes a call on the source or the sink moves at most, where nothing else is said.
const PIECE: u64 = 4096;

/// What a stop leaves of each range, where nothing else is said.
const WAY: &str = "after";

/// Does what lines say, one after the other.
#[derive(Drop)]
pub struct Scenes {
    alloc: Global,
    values: Values,
}

fn pieces_of(options: Options<'_>) -> u32 {
    options.number("pieces").unwrap_or(PIECE).min(0xffff_ffff) as u32
}

fn last_of(options: Options<'_>) -> Option<usize> {
    Some(options.number("last")? as usize)
}

fn way_of(options: Options<'_>) -> &str {
    options.word("by").unwrap_or(WAY)
}

impl Scenes {
    /// With no name for anything.
    pub fn new(alloc: Global) -> Scenes {
        let values = Values::new(alloc);
        Scenes { alloc, values }
    }

    // The words of a run, and its source.
    fn asked<'a>(&self, options: Options<'a>, command: Command<'a>) -> Result<Asked, Trouble<'a>> {
        let mut asked = asked_of(self.alloc, command)?;
        if let Some(name) = options.word("from") {
            asked.source = self.values.value(name)?.bytes.to_vec(self.alloc)?;
        }
        Ok(asked)
    }

    fn plan<'a>(&self, options: Options<'a>) -> Result<Plan, Trouble<'a>> {
        Ok(Plan {
            pieces: pieces_of(options),
            fails: self.values.number_if(options.word("fails"))?,
            lies: self.values.number_if(options.word("lies"))?,
            stops: self.values.number_if(options.word("stops"))?,
        })
    }

    // Runs a command line on a disk.
    fn ran<'a, P: Program>(
        &self,
        program: &P,
        name: &'a str,
        options: Options<'a>,
        command: Command<'a>,
    ) -> Result<(Status, Watched), Trouble<'a>> {
        let plan = self.plan(options)?;
        let disk = &self.values.value(name)?.bytes;
        let asked = self.asked(options, command)?;
        Ok(run_on(program, self.alloc, &asked, disk, plan)?)
    }

    // Tells of a run what the options say.
    fn push_ran(
        &self,
        out: &mut Vec<u8>,
        options: Options<'_>,
        most: Option<u64>,
        status: Status,
        host: &MemoryHost,
    ) -> Result<(), AllocError> {
        let telling = Telling {
            last: last_of(options),
            brief: options.has("brief"),
        };
        push_sent(self.alloc, out, host.sent_bytes(), telling)?;
        push_status(self.alloc, out, status)?;
        self.push_bound(out, most, host.calls())
    }

    // Runs a command line, and tells and keeps of it what the options say.
    fn on<'a, P: Program>(
        &mut self,
        program: &P,
        out: &mut Vec<u8>,
        head: &mut Head<'a>,
        rest: &'a str,
    ) -> Result<(), Trouble<'a>> {
        let name = head.word();
        let options = options_of(head.left, false)?;
        let most = self.values.number_if(options.word("within"))?;
        let ways = ways_of(self.alloc, way_of(options))?;
        let page = self.values.value(name)?.page;
        let (status, watched) = self.ran(program, name, options, command_of(rest))?;
        self.push_ran(out, options, most, status, watched.host())?;
        Ok(self.keep(options, ways.first(), page, watched.host())?)
    }

    // Keeps of a run what the options say.
    fn keep(
        &mut self,
        options: Options<'_>,
        way: Option<&Way>,
        page: usize,
        host: &MemoryHost,
    ) -> Result<(), AllocError> {
        let calls = host.calls();
        if let (Some(left), Some(way)) = (options.word("leaves"), way) {
            let image = way.image(self.alloc, host, calls)?;
            self.values.keep(left, image, page)?;
        }
        if let Some(sent) = options.word("sends") {
            let bytes = host.sent_bytes().to_vec(self.alloc)?;
            self.values.keep(sent, bytes, 1)?;
        }
        match options.word("marks") {
            Some(mark) => self.values.mark(mark, calls),
            None => Ok(()),
        }
    }

    // Adds whether a bound of calls was kept, where one is stated.
    fn push_bound(
        &self,
        out: &mut Vec<u8>,
        most: Option<u64>,
        calls: u64,
    ) -> Result<(), AllocError> {
        match most {
            Some(most) if calls > most => {
                let more = calls.saturating_sub(most);
                out.extend_from_slice(format!(in self.alloc; "; {more} calls more\n")?.as_bytes())
            }
            Some(_) => out.extend_from_slice(b"; within\n"),
            None => Ok(out.push(b'\n')?),
        }
    }

    // Runs a command line for each of its calls, and tells what came of it.
    fn each<'a, P: Program>(
        &self,
        program: &P,
        out: &mut Vec<u8>,
        head: &mut Head<'a>,
        rest: &'a str,
    ) -> Result<(), Trouble<'a>> {
        let mode = mode_of(head.word())?;
        head.pass("on")?;
        let name = head.word();
        let options = options_of(head.left, true)?;
        let asked = self.asked(options, command_of(rest))?;
        let ways = ways_of(self.alloc, way_of(options))?;
        let trial = Trial {
            program,
            alloc: self.alloc,
            mode,
            every: options.number("every").unwrap_or(1).max(1),
            disk: &self.values.value(name)?.bytes,
            asked: &asked,
            pieces: pieces_of(options),
            ways: &ways,
            looks: self.values.looks(options.word("looks"))?,
            reopened: options.has("reopened"),
            through: self.values.looks(options.word("through"))?,
        };
        Ok(trial.push(out)?)
    }

    // Tells the file that words name, and how many bytes it is made with.
    fn file(&self, out: &mut Vec<u8>, words: &str) -> Result<(), AllocError> {
        let words = words_of(self.alloc, words)?;
        let text = match file_of(self.alloc, &words)? {
            Some(file) => {
                let path = file.path;
                match file.make {
                    Some(bytes) => format!(in self.alloc; "{path} {bytes}\n")?,
                    None => format!(in self.alloc; "{path}\n")?,
                }
            }
            None => String::from_str(self.alloc, "none\n")?,
        };
        out.extend_from_slice(text.as_bytes())
    }

    // Runs a command line on the file that it names, as the program does, and tells how it ended.
    fn real<P: Program>(
        &self,
        program: &P,
        rt: &HostRuntime,
        out: &mut Vec<u8>,
        words: &str,
    ) -> Result<(), AllocError> {
        let words = words_of(self.alloc, words)?;
        let file = file_of(self.alloc, &words)?;
        let status = program.on_file(rt, &words, file);
        out.extend_from_slice(status_text(self.alloc, status)?.as_bytes())?;
        Ok(out.push(b'\n')?)
    }

    fn show<'a>(&self, out: &mut Vec<u8>, head: &mut Head<'a>) -> Result<(), Trouble<'a>> {
        let name = head.word();
        let place = head.place()?;
        let count = head.number()?;
        let part = self.values.value(name)?.part(place, count);
        out.extend_from_slice(hex::encode(self.alloc, part)?.as_bytes())?;
        Ok(out.push(b'\n')?)
    }

    fn same<'a>(&self, out: &mut Vec<u8>, head: &mut Head<'a>) -> Result<(), Trouble<'a>> {
        let name = head.word();
        let other = head.word();
        let is_same = self.values.value(name)?.bytes == self.values.value(other)?.bytes;
        let text: &[u8] = if is_same { b"the same\n" } else { b"others\n" };
        Ok(out.extend_from_slice(text)?)
    }

    fn tally<'a>(&mut self, head: &mut Head<'a>) -> Result<(), Trouble<'a>> {
        let name = head.word();
        head.pass("of")?;
        let line = tally_of(self.alloc, &self.values.value(head.word())?.bytes)?;
        Ok(self.values.keep(name, line.into_bytes(), 1)?)
    }

    fn copy<'a>(&mut self, head: &mut Head<'a>) -> Result<(), Trouble<'a>> {
        let name = head.word();
        head.pass("of")?;
        self.values.copy(name, head.word())
    }

    fn disk<'a>(&mut self, head: &mut Head<'a>) -> Result<(), Trouble<'a>> {
        let name = head.word();
        let bytes = head.number()?;
        let page = head.number_or(PAGE)?;
        let zeros = vec![in self.alloc; 0u8; bytes]?;
        Ok(self.values.keep(name, zeros, page)?)
    }

    fn set<'a>(&mut self, head: &mut Head<'a>) -> Result<(), Trouble<'a>> {
        let name = head.word();
        let place = head.place()?;
        self.values.set(name, place, head.word())
    }

    fn fill<'a>(&mut self, head: &mut Head<'a>) -> Result<(), Trouble<'a>> {
        let name = head.word();
        let times = head.number()?;
        self.values.add_bytes(name, times as u64, head.word())
    }

    fn cut<'a>(&mut self, head: &mut Head<'a>) -> Result<(), Wrong<'a>> {
        let name = head.word();
        let count = head.number()?;
        self.values.cut(name, count)
    }

    fn text<'a>(&mut self, head: &mut Head<'a>, rest: &'a str) -> Result<(), Trouble<'a>> {
        let name = head.word();
        let times = head.number_or(1)?;
        Ok(self.values.add_lines(name, times as u64, rest)?)
    }

    // Does what a line says that names something.
    fn make<'a>(
        &mut self,
        verb: &'a str,
        head: &mut Head<'a>,
        rest: &'a str,
    ) -> Result<(), Trouble<'a>> {
        match verb {
            "disk" => self.disk(head),
            "copy" => self.copy(head),
            "set" => self.set(head),
            "text" => self.text(head, rest),
            "fill" => self.fill(head),
            "cut" => Ok(self.cut(head)?),
            "tally" => self.tally(head),
            "look" => Ok(self.values.add_look(head.word(), command_of(rest))?),
            _ => Err(Trouble::Wrong(Wrong(verb))),
        }
    }

    // Does what a line of this verb says, and adds what is told of it.
    fn tell<'a, P: Program>(
        &mut self,
        program: &P,
        rt: &HostRuntime,
        out: &mut Vec<u8>,
        head: &mut Head<'a>,
        rest: &'a str,
    ) -> Result<(), Trouble<'a>> {
        let verb = head.word();
        match verb {
            "on" => self.on(program, out, head, rest),
            "each" => self.each(program, out, head, rest),
            "real" => Ok(self.real(program, rt, out, rest)?),
            "file" => Ok(self.file(out, rest)?),
            "show" => self.show(out, head),
            "same" => self.same(out, head),
            _ => self.make(verb, head, rest),
        }
    }

    // Does what a line says, and adds what is told of it.
    fn line<'a, P: Program>(
        &mut self,
        program: &P,
        rt: &HostRuntime,
        out: &mut Vec<u8>,
        line: &'a str,
    ) -> Result<(), Trouble<'a>> {
        if line.is_empty() || line.starts_with('#') {
            return Ok(());
        }
        if line.starts_with("= ") {
            out.extend_from_slice(line.as_bytes())?;
            return Ok(out.push(b'\n')?);
        }
        let (left, rest) = halves(line);
        self.tell(program, rt, out, &mut Head { left }, rest)
    }

    /// What is told of the line of that number.
    pub fn told<P: Program>(
        &mut self,
        program: &P,
        rt: &HostRuntime,
        number: u64,
        line: &str,
    ) -> Result<Vec<u8>, AllocError> {
        let mut out = Vec::new(self.alloc);
        match self.line(program, rt, &mut out, line) {
            Ok(()) => Ok(out),
            Err(Trouble::Memory) => Err(AllocError),
            Err(Trouble::Wrong(wrong)) => {
                let word = wrong.0;
                let text = format!(in self.alloc; "line {number}: what is '{word}'?\n")?;
                out.extend_from_slice(text.as_bytes())?;
                Ok(out)
            }
        }
    }
}
