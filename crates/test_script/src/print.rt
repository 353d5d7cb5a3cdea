// Writes the line of a call onto a transcript's page.
ghost use Rattle.std.specs.Prelude.{◌≡◌, ◌≤◌, length};
ghost use Rattle.test_text.specs.Printing.{Puts};
ghost use Rattle.drive.specs.Words.{data_of};
ghost use Rattle.test_script.specs.Texts.{long_text, status_text, sum_text, answer_text, access_text, offer_text, refusal_text, call_text, image_text};

use drive::{Answer, Offer, Refusal};
use geometry::Sector;
use test_text::Page;

#[tactic(auto, unfolding(test_text::specs::Printing::laid, crate::specs::Texts::offer_text))]
fn put_offer(page: &mut Page, offer: Offer)
    ensures { Puts (offer_text offer) page.old page.new }
{
    page.word(b"offer ");
    page.hex(u8::from(offer));
}

// Writes a word, and the sector's number.
#[tactic(auto, using(test_text::proofs::Laying::laid_append), unfolding(crate::specs::Texts::access_text))]
fn put_access(page: &mut Page, word: &[u8], sector: Sector)
    ensures { Puts (access_text word.now sector) page.old page.new }
{
    page.word(word);
    page.decimal(u64::from(sector.0));
}

#[tactic(auto, unfolding(test_text::specs::Printing::laid, crate::specs::Texts::refusal_text))]
fn put_refusal(page: &mut Page, refusal: Refusal)
    ensures { Puts (refusal_text refusal) page.old page.new }
{
    page.word(b"refused ");
    page.decimal(u64::from(u32::from(refusal)));
}

fn put_answer(page: &mut Page, answer: Answer)
    ensures { Puts (answer_text answer) page.old page.new }
{
    match answer {
        Answer::Wait => page.word(b"wait"),
        Answer::Offer(offer) => put_offer(page, offer),
        Answer::Read(sector) => put_access(page, b"read ", sector),
        Answer::Write(sector) => put_access(page, b"write ", sector),
        Answer::Store => page.word(b"store"),
        Answer::Finished => page.word(b"finished"),
        Answer::Refused(refusal) => put_refusal(page, refusal),
    }
}

// Writes eight digits.
#[tactic(auto, unfolding(test_text::specs::Printing::laid, crate::specs::Texts::long_text))]
fn put_long(page: &mut Page, x: u32)
    ensures { Puts (long_text x) page.old page.new }
{
    let [a, b, c, d] = x.to_be_bytes();
    page.hex(a);
    page.hex(b);
    page.hex(c);
    page.hex(d);
}

// Writes the first four bytes.
#[tactic(auto, unfolding(test_text::specs::Printing::laid, crate::specs::Texts::status_text))]
fn put_status(page: &mut Page, buf: &[u8; 536])
    ensures { Puts (status_text buf.now) page.old page.new }
{
    let [a, b, c, d, ..] = buf;
    page.hex(*a);
    page.hex(*b);
    page.hex(*c);
    page.hex(*d);
}

// Writes the sum of some bytes, and the line's end.
#[tactic(auto, using(test_text::proofs::Laying::laid_append), unfolding(crate::specs::Texts::sum_text))]
fn put_sum(page: &mut Page, s: &[u8])
    requires { length s.now ≤ 4096 }
    ensures { Puts (sum_text s.now) page.old page.new }
{
    put_long(page, crate::sum::adler(s));
    page.push(b'\n');
}

// Writes the sum of the data part, which follows the four status bytes.
#[tactic(auto, using(crate::proofs::Sums::data_left), unfolding(drive::specs::Words::data_of))]
fn put_data(page: &mut Page, buf: &[u8; 536])
    ensures { Puts (sum_text (data_of buf.now)) page.old page.new }
{
    put_sum(page, &buf[4..]);
}

// Writes the line of a call: its answer, and the buffer that it left.
#[tactic(auto, using(test_text::proofs::Laying::laid_append), unfolding(crate::specs::Texts::call_text))]
pub fn put_call(page: &mut Page, answer: Answer, buf: &[u8; 536])
    ensures { Puts (call_text answer buf.now) page.old page.new }
{
    put_answer(page, answer);
    page.word(b" status ");
    put_status(page, buf);
    page.word(b" data ");
    put_data(page, buf);
}

// Writes the line of a call that makes an image: its answer, and the bytes lent for it.
#[tactic(auto, using(test_text::proofs::Laying::laid_append), unfolding(crate::specs::Texts::image_text))]
pub fn put_image(page: &mut Page, answer: Answer, lent: &[u8])
    requires { length lent.now ≤ 4096 }
    ensures { Puts (image_text answer lent.now) page.old page.new }
{
    put_answer(page, answer);
    page.word(b" image ");
    put_sum(page, lent);
}
