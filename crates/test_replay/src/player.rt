// Makes the call of a line on a drive, and writes its line of the transcript. No other file knows the controller.
ghost use Rattle.std.specs.Prelude.{◌≤◌, length};

use calls::Controller;
use drive::{Drive, Marks, Phase, Step};
use table::Table;
use test_script::{Call, Line, Place};
use test_text::Page;

// A call with what its line brings: a number, which is a byte, further bytes, and how many bytes the call is lent, if the line
// says so.
#[derive(Clone, Copy)]
struct Request<'a> {
    call: Call,
    byte: u8,
    bytes: &'a [u8],
    lent: Option<usize>,
}

impl<'a> Request<'a> {
    // Makes the call, which is lent all of buf.
    fn make(&self, drive: Drive, buf: &mut [u8]) -> Step {
        let unit = Controller(drive);
        match self.call {
            Call::Start => unit.start(buf),
            Call::Raise => unit.raise(buf),
            Call::Lower => unit.lower(buf, self.byte),
            Call::Feed => unit.feed(buf, self.bytes),
            Call::Surface => unit.surface(buf, self.byte, self.bytes),
            Call::Reset => unit.reset(buf),
            Call::Image => unit.image(buf),
            Call::Convert => Step {
                drive,
                answer: calls::convert(self.bytes, buf),
            },
        }
    }

    // Makes the call, which is lent the first n bytes of s, or all where there are fewer.
    fn make_cut(&self, drive: Drive, s: &mut [u8], n: usize) -> Step {
        let n = n.min(s.len());
        self.make(drive, &mut s[..n])
    }

    // Makes the call, which is lent what the line says: so many bytes of buf, and zeros after its end. It is lent a copy, which is
    // put back: a wrong length changes nothing.
    fn make_lent(&self, drive: Drive, buf: &mut [u8]) -> Step
        requires { length buf.old ≤ 600 }
    {
        let mut copy = [0u8; 600];
        buffer::put(&mut copy, 0, buf);
        let step = self.make_cut(drive, &mut copy, self.lent.unwrap_or(buf.len()));
        buffer::put(buf, 0, buffer::cut(&copy, buf.len()));
        step
    }
}

// A drive between two calls, and its buffer.
#[derive(Clone, Copy)]
pub struct Player {
    drive: Drive,
    buf: [u8; 536],
}

impl Player {
    // Returns a drive that was never started: idle, no table, no latch, status 3 bit 7 not due.
    pub fn new() -> Player {
        let state = drive::State {
            phase: Phase::Idle,
            marks: Marks {
                known: false,
                changed: false,
                moved: false,
                latch: false,
                fresh: false,
            },
            command: [0; 6],
            count: 0,
            fed: 0,
            run: 0,
        };
        Player {
            drive: Drive {
                table: Table::empty(),
                causes: [0; 32],
                state,
            },
            buf: [0; 536],
        }
    }

    // Makes an image call, which is lent 532 bytes of EE hex.
    fn image(&mut self, request: &Request, page: &mut Page) {
        let mut image = [0xEE; 532];
        let step = request.make_lent(self.drive, &mut image);
        self.drive = step.drive;
        test_script::put_image(page, step.answer, &image);
    }

    // Makes a convert call, whose second buffer is as many bytes of EE hex as are lent, or 532.
    fn convert(&mut self, request: &Request, page: &mut Page) {
        let mut second = [0xEE; 600];
        let n = request.lent.unwrap_or(532);
        let step = request.make_cut(self.drive, &mut second, n);
        self.drive = step.drive;
        test_script::put_image(page, step.answer, buffer::cut(&second, n));
    }

    // Makes a call that is lent the drive's buffer.
    fn other(&mut self, request: &Request, page: &mut Page) {
        let step = request.make_lent(self.drive, &mut self.buf);
        self.drive = step.drive;
        test_script::put_call(page, step.answer, &self.buf);
    }

    // Makes the call of a line, if it is one, and writes its line of the transcript.
    pub fn play(&mut self, line: Line, number: u32, bytes: &[u8], page: &mut Page) {
        let Place::Takes(call, _) = line.place else {
            return;
        };
        let request = Request {
            call,
            byte: (number % 256) as u8,
            bytes: buffer::cut(bytes, line.used),
            lent: line.lent,
        };
        match call {
            Call::Image => self.image(&request, page),
            Call::Convert => self.convert(&request, page),
            _ => self.other(&request, page),
        }
    }
}
