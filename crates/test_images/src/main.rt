// Reads descriptions of images, a line each, and writes for each what the reader finds in it and
// what the writer makes of that.
#![tactic(auto)]

use std::io;
use test_text::{Bytes, Fault, Page, Script, read_all};

// A page written further than this is emptied before the next line, which finds room then.
const FULL: usize = 32768;

// Where in a line the reader is. Word: after so many letters of the word.
#[derive(Clone, Copy)]
enum Place {
    Start,
    Skipped,
    Word(usize),
    Bytes(Bytes),
    Wrong(Fault),
}

// The line's number, the place in it, the buffer of the bytes that it brings, and the output that is not written yet.
#[derive(Drop)]
struct Reader<'a> {
    line: u64,
    place: Place,
    bytes: [u8; 4096],
    page: Page<'a>,
}

// Writes an entry, after a blank.
fn put_entry(page: &mut Page, x: u16) {
    page.push(b' ');
    if x == lists::DEAD {
        page.word(b"dead");
    } else {
        page.decimal(u64::from(x));
    }
}

// Writes the spare list of form B: each entry with its cause.
fn put_spares(page: &mut Page, spares: &[u16], causes: &[u16]) {
    for (x, cause) in spares.iter().zip(causes) {
        put_entry(page, *x);
        page.push(b':');
        page.decimal(u64::from(*cause));
    }
}

// Writes a list after its name.
fn put_named(page: &mut Page, name: &[u8], list: &[u16]) {
    page.word(name);
    for x in list {
        put_entry(page, *x);
    }
}

// Writes the line of an image of form A, with the bytes that the writer of form A makes.
fn put_form_a(page: &mut Page, spares: &[u16], bads: &[u16]) {
    let mut made = [0u8; 532];
    codec::form_a::write(spares, bads, &mut made);
    put_named(page, b"spares", spares);
    put_named(page, b" bads", bads);
    page.word(b" written");
    page.bytes(&made);
    page.push(b'\n');
}

// Writes the line of an image of form B, with the bytes that the writer of form B makes.
fn put_form_b(page: &mut Page, run: u32, spares: &[u16], causes: &[u16], bads: &[u16]) {
    let mut made = [0u8; 532];
    codec::form_b::write(run, spares, causes, bads, &mut made);
    page.word(b"form b run ");
    page.decimal(u64::from(run));
    page.word(b" spares");
    put_spares(page, spares, causes);
    put_named(page, b" bads", bads);
    page.word(b" written");
    page.bytes(&made);
    page.push(b'\n');
}

// Writes the line of bytes that are no image: form B with a wrong sum or another fault says which.
fn put_none(page: &mut Page, x: image::Fault) {
    page.word(match x {
        image::Fault::Form => b"none\n",
        image::Fault::Sum => b"none 7\n",
        image::Fault::Field => b"none 8\n",
    });
}

// Says whether an image is of form B.
fn is_form_b(s: &[u8]) -> bool {
    s.len() >= 4 && codec::is_form_b(s)
}

// Writes the line for an image.
fn put_image(page: &mut Page, s: &[u8]) {
    let image = match codec::read_image(s) {
        Ok(image) => image,
        Err(x) => return put_none(page, x),
    };
    let t = image.table;
    let spares = buffer::cut(&t.spares, t.nspares);
    let bads = buffer::cut(&t.bads, t.nbads);
    if is_form_b(s) {
        let causes = buffer::cut(&image.causes, t.nspares);
        put_form_b(page, image.run, spares, causes, bads);
    } else {
        put_form_a(page, spares, bads);
    }
}

// Returns the place after one more character, where k letters of the word are read.
fn letter(k: usize, ch: u8) -> Place {
    match (k, ch) {
        (0, b'r') | (1, b'e') | (2, b'a') | (3, b'd') => Place::Word(k + 1),
        (4, b' ') => Place::Bytes(Bytes::new()),
        _ => Place::Wrong(Fault::Word),
    }
}

impl Place {
    // Returns the place after one more character.
    fn step(self, ch: u8, bytes: &mut [u8]) -> Place {
        match self {
            Place::Start if ch == b'#' => Place::Skipped,
            Place::Start => letter(0, ch),
            Place::Word(k) => letter(k, ch),
            Place::Bytes(b) => Place::Bytes(b.step(bytes, ch)),
            Place::Skipped | Place::Wrong(_) => self,
        }
    }

    // Returns how many bytes of an image a line brought that ends here, if it is no line to skip.
    fn end(self, bytes: &mut [u8]) -> Result<Option<usize>, Fault> {
        match self {
            Place::Start | Place::Skipped => Ok(None),
            Place::Word(4) => Ok(Some(0)),
            Place::Word(_) => Err(Fault::Word),
            Place::Bytes(b) => Ok(Some(b.end(bytes)?)),
            Place::Wrong(fault) => Err(fault),
        }
    }

    // Says whether the line can still be right.
    fn is_open(self) -> bool {
        match self {
            Place::Bytes(b) => b.is_open(),
            _ => !matches!(self, Place::Wrong(_)),
        }
    }
}

impl<'a> Reader<'a> {
    fn new(out: &'a mut [u8]) -> Reader<'a> {
        Reader {
            line: 1,
            place: Place::Start,
            bytes: [0; 4096],
            page: Page::new(out),
        }
    }

    // Writes what is left, and the error if there is one. That of test_replay has another limit, place and words.
    fn finish(&mut self, rt: &impl Print) -> io::Result<()> {
        self.page.make_room(rt, FULL)?;
        if let Place::Wrong(fault) = self.place {
            self.page
                .error(self.line, fault, b"a line is read and its bytes");
        }
        self.page.flush(rt)
    }
}

impl Script for Reader<'_> {
    // Reads one more character.
    fn step(&mut self, ch: u8) {
        self.place = self.place.step(ch, &mut self.bytes);
    }

    // Shows the image of a line that ends here, if it brought one, and goes on to the next line. A wrong line stays.
    fn end_line(&mut self, rt: &impl Print) -> io::Result<()> {
        match self.place.end(&mut self.bytes) {
            Ok(brought) => {
                if let Some(n) = brought {
                    self.page.make_room(rt, FULL)?;
                    put_image(&mut self.page, buffer::cut(&self.bytes, n));
                }
                self.line = self.line.saturating_add(1);
                self.place = Place::Start;
            }
            Err(fault) => self.place = Place::Wrong(fault),
        }
        Ok(())
    }

    // Says whether the line can still be right.
    fn is_open(&self) -> bool {
        self.place.is_open()
    }
}

fn main(rt: HostRuntime) -> io::Result<()> {
    let mut input = [0u8; 65536];
    let mut out = [0u8; 65536];
    let mut reader = Reader::new(&mut out);
    read_all(&mut reader, &rt, &mut rt.stdin(), &mut input)?;
    reader.finish(&rt)
}
