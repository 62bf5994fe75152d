// A table of numbers, cleared by an opening (Document 01, What the host lends).
ghost use Rattle.std.specs.Prelude.{◌≡◌, length, replicate};

// Every number 0: every counter, every byte of a slot.
pub fn clear<N: Copy + Default>(table: &mut [N])
    ensures { (zero : N) × N.is_default zero × (table.new ≡ replicate (length table.old) zero) }
{
    let zero = N::default();
    for number in table.iter_mut() {
        *number = zero;
    }
}
