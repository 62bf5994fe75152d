// BadShape: S, G, a length or the slot count (Document 01, What the host lends).
ghost use Rattle.std.specs.Prelude.{◌≡◌};
ghost use Rattle.model.specs.Tables.{sizes_good, shape_good};

// S is 1 to 64, G is 0 to 256.
pub fn sizes_good(s: u8, g: usize) -> bool
    ensures { result ≡ sizes_good s g }
{
    (1 <= s) & (s <= 64) & (g <= 256)
}

// Sizes, and the three lengths that follow from them and the slot count.
pub fn shape_good(s: u8, g: usize, sends: usize, receives: usize, pools: usize) -> bool
    ensures { result ≡ shape_good s g sends receives pools }
{
    if !sizes_good(s, g) {
        return false;
    }
    let cells = (s as usize) * g;
    (sends == cells) & (receives == cells) & ((pools % 5 == 0) & (pools / 5 <= 1024))
}
