// What a turn makes of the table and of the causes of its spare entries.
ghost use Rattle.std.specs.Prelude.{◌≡◌, true};
ghost use Rattle.image.specs.Images.{well_formed, table_of, causes_of};
ghost use Rattle.calls.specs.Gives.{Formed, altered_of};

use drive::Change;
use image::Image;
use table::Table;

// Holds a table, and the causes of its spare entries.
#[derive(Clone, Copy)]
pub struct Noted {
    pub table: Table,
    pub causes: [u16; 32],
}

// Returns the table of a well-formed image, with its causes.
fn load(bytes: &[u8]) -> Noted
    requires { well_formed bytes.now ≡ true }
    ensures { result ≡ record { table = table_of bytes.now; causes = causes_of bytes.now } }
{
    let Image { table, causes, .. } = codec::read_image(bytes).unwrap();
    Noted { table, causes }
}

// Returns what a change makes of a table and its causes, given the bytes that the surface brought.
pub fn alter(k: Noted, c: Change, bytes: &[u8]) -> Noted
    requires { Formed bytes.now c }
    ensures { result ≡ altered_of c k bytes.now }
{
    let Noted { table, causes } = k;
    match c {
        Change::Keep => k,
        Change::Load => load(bytes),
        Change::Enter(b) => Noted {
            table: table.with_bad(b),
            causes,
        },
        Change::Remove(b) => Noted {
            table: table.without_bad(b),
            causes,
        },
        Change::Move(b, live, killed) => Noted {
            table: table.list(b).without_bad(b),
            causes: table.list_causes(b, u16::from(live), u16::from(killed), causes),
        },
        Change::Kill(x) => Noted {
            table: table.kill_next(),
            causes: table.kill_cause(u16::from(x), causes),
        },
    }
}
