// Blocks and sectors of document 01: two separate counts, and the mapping from a block to its home.
#![tactic(auto)]

ghost use Rattle.std.specs.Prelude.{◌≡◌, ◌<◌};
ghost use Rattle.geometry.specs.Geometry.{is_block, is_sector, home_of, spare_of, table_sector};

// A block's number. Blocks are 0..9727.
#[derive(Clone, Copy)]
pub struct Block(pub u16);

// A sector's number. Sectors are 0..9791.
#[derive(Clone, Copy)]
pub struct Sector(pub u32);

// Says whether a block exists.
pub fn is_block(b: Block) -> bool
    ensures { result ≡ is_block b.0 }
{
    b.0 < 9728
}

// Says whether a sector exists. It and `is_block` are two tests: each number has a type and a count of its own.
pub fn is_sector(s: Sector) -> bool
    ensures { result ≡ is_sector s.0 }
{
    s.0 < 9792
}

// Returns the sector of a block that was never moved.
#[tactic(auto, unfolding(crate::specs::Geometry::home_of))]
pub fn home(b: Block) -> Sector
    ensures { result ≡ home_of b }
{
    let n = u32::from(b.0);
    Sector(if n < 4928 { n } else { n + 64 })
}

// Returns the sector of spare k. A u32 has no From of a usize, and below 32 the cast loses no bit.
pub fn spare(k: usize) -> Sector
    requires { k < 32 }
    ensures { result ≡ spare_of k }
{
    Sector(4928 + k as u32)
}

// Returns the sector of the table.
pub fn table_sector() -> Sector
    ensures { result ≡ table_sector }
{
    Sector(4960)
}
