// Reads a program's input, a line after another.
use std::io;
use std::io::Read;

// What reads lines a character at a time, and may write at the end of each. A wrong line stays the last.
pub trait Script {
    // Reads one more character of a line.
    fn step(&mut self, ch: u8);

    // Ends a line, and goes on to the next. A wrong line stays.
    fn end_line(&mut self, rt: &impl Print) -> io::Result<()>;

    // Says whether the line can still be right.
    fn is_open(&self) -> bool;
}

// Reads a part of the input, which may end within a line.
fn read_part<S: Script>(script: &mut S, rt: &impl Print, part: &[u8]) -> io::Result<()> {
    for ch in part {
        if *ch == b'\n' {
            script.end_line(rt)?;
        } else {
            script.step(*ch);
        }
    }
    Ok(())
}

// Reads the whole input; the last line may end with it. The count of turns lets the loop end for the prover. No run uses it up.
pub fn read_all<S: Script>(
    script: &mut S,
    rt: &impl Print,
    from: &mut impl Read,
    input: &mut [u8],
) -> io::Result<()> {
    for _ in 0..u64::MAX {
        let n = from.read(input)?;
        read_part(script, rt, &input[..n])?;
        if n == 0 || !script.is_open() {
            break;
        }
    }
    script.end_line(rt)
}
