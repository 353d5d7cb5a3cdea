// Runs a call script: reads it from standard input, makes its calls, one after another, on one drive,
// and writes the transcript, a line for each call.
#![tactic(auto)]

mod player;

use player::Player;
use std::io;
use test_script::{Brought, Line, Place};
use test_text::{Page, Script, read_all};

// A page written further than this has no room for a line, which has less than 100 characters.
const FULL: usize = 65000;

// The line's number, what was read of it, the numbers and the bytes that it brings, the drive, and the output that is not written
// yet.
#[derive(Drop)]
struct Run<'a> {
    number: u64,
    line: Line,
    numbers: [u32; 1],
    bytes: [u8; 4096],
    player: Player,
    page: Page<'a>,
}

impl<'a> Run<'a> {
    fn new(out: &'a mut [u8]) -> Run<'a> {
        Run {
            number: 1,
            line: Line::new(),
            numbers: [0],
            bytes: [0; 4096],
            player: Player::new(),
            page: Page::new(out),
        }
    }

    // Writes what is left, and the error if there is one. That of test_images has another limit, place and words.
    fn finish(&mut self, rt: &impl Print) -> io::Result<()> {
        self.page.make_room(rt, FULL)?;
        if let Place::Wrong(fault) = self.line.place {
            self.page.error(self.number, fault, b"no such call");
        }
        self.page.flush(rt)
    }
}

impl Script for Run<'_> {
    // Reads one more character.
    fn step(&mut self, ch: u8) {
        let mut brought = Brought {
            numbers: &mut self.numbers,
            bytes: &mut self.bytes,
        };
        self.line = test_script::step(self.line, ch, &mut brought);
    }

    // Ends a line: makes its call if it is one, and goes on to the next. A wrong line stays, and empties no output.
    fn end_line(&mut self, rt: &impl Print) -> io::Result<()> {
        if self.page.at > FULL {
            rt.write_all(self.page.written())?;
        }
        let mut brought = Brought {
            numbers: &mut self.numbers,
            bytes: &mut self.bytes,
        };
        self.line = test_script::end(self.line, &mut brought);
        if !self.is_open() {
            return Ok(());
        }
        if self.page.at > FULL {
            self.page.clear();
        }
        self.player
            .play(self.line, self.numbers[0], &self.bytes, &mut self.page);
        self.number = self.number.saturating_add(1);
        self.line = Line::new();
        Ok(())
    }

    // Says whether the line can still be right.
    fn is_open(&self) -> bool {
        !matches!(self.line.place, Place::Wrong(_))
    }
}

fn main(rt: HostRuntime) -> io::Result<()> {
    let mut input = [0u8; 65536];
    let mut out = [0u8; 65536];
    let mut run = Run::new(&mut out);
    read_all(&mut run, &rt, &mut rt.stdin(), &mut input)?;
    run.finish(&rt)
}
