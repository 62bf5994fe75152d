// Whether every slot is good, and how many are empty, in one pass, for each form of a slot as one number (Document 01, What the host lends; Document 02, One).
ghost use Rattle.std.specs.Prelude.{◌≡◌, ◌+◌, ◌*◌, ◌%◌, ◌≤◌, ◌<◌, ◌&&◌, ℕ, List, Bool, cond, eqb, length, Some, None};
ghost use Rattle.std.specs.Int.Bits.{bit_or};
ghost use Rattle.model.specs.Questions.{every, how_many};
ghost use Rattle.model.specs.Tables.{slots_of, empty_at};
ghost use Rattle.scan.specs.Form.{Form, number_at, bits_good, Sound, Tells};
ghost use Rattle.scan.specs.Word.{clear, ones, Low};

// A slot as one number, of which the rest by 4 is the kind of a good one, and what is looked at of it.
#[derive(Clone, Copy)]
pub struct Number {
    pub whole: u64,
    pub looked: u64,
    ghost low: { looked < 72057594037927936 },
}

// A form of a slot as one number: five bytes here, seven in crate `wide`.
pub trait SlotForm {
    ghost form: { Form };

    // How many slots a pool has.
    fn slots(pool: &[u8]) -> usize
        ensures { result ≡ slots_of form.width pool.now };

    // By kind, what may be added before a field above its limit reaches the field's top bit.
    fn rooms_of(s: u8, g: usize) -> [u64; 4]
        requires { (s ≤ 64) × (g ≤ 256) }
        ensures room { result ≡ form.room s g }
        ensures low { Low result }
        ensures sound { Sound form s g result };

    // Whether nothing is seen that a good slot does not show.
    fn is_clear(seen: u64) -> bool
        ensures { result ≡ clear form.mask seen };

    // A slot's number, where another slot follows it: eight bytes are read.
    fn within(pool: &[u8], slot: usize) -> Number
        requires { slot + 1 < slots_of form.width pool.now }
        ensures whole { result.whole ≡ form.within (number_at form pool.now slot) }
        ensures shown { (result.whole % 4 ≡ number_at form pool.now slot % 4) × (result.looked ≡ form.looked (number_at form pool.now slot)) };

    // A slot's number, wherever it stands.
    fn alone(pool: &[u8], slot: usize) -> Number
        requires { slot < slots_of form.width pool.now }
        ensures whole { result.whole ≡ form.alone (number_at form pool.now slot) }
        ensures shown { (result.whole % 4 ≡ number_at form pool.now slot % 4) × (result.looked ≡ form.looked (number_at form pool.now slot)) };
}

// What the slots so far show: their numbers, and their numbers with the room of their kinds, kept apart, which takes fewer steps; and how many are empty where all are good.
#[derive(Clone, Copy)]
struct Seen {
    numbers: u64,
    sums: u64,
    empties: usize,
}

// By kind, the room of a slot's fields, and what it adds to the count of empty slots.
#[derive(Drop)]
struct Kinds {
    room: [u64; 4],
    one: [usize; 4],
    ghost low: { Low room },
    ghost counts: { one ≡ ones },
}

// What is seen with one slot more, as one number.
fn with_number<F: SlotForm>(seen: Seen, kinds: &Kinds, x: Number) -> Seen
    requires { seen.empties < 9223372036854775808 }
    ensures { (clear F.form.mask (bit_or result.numbers result.sums) ≡ (clear F.form.mask (bit_or seen.numbers seen.sums) && bits_good F.form kinds.now.room (x.whole % 4) x.looked))
        × (result.empties ≡ seen.empties + cond (eqb (x.whole % 4) 0) 1 0) }
{
    let kind = (x.whole % 4) as usize;
    Seen {
        numbers: seen.numbers | x.looked,
        sums: seen.sums | (x.looked + kinds.room[kind]),
        empties: seen.empties + kinds.one[kind],
    }
}

// What is seen with one slot more, where another follows it.
fn with_slot<F: SlotForm>(seen: Seen, kinds: &Kinds, pool: &[u8], slot: usize) -> Seen
    requires { (slot + 1 < slots_of F.form.width pool.now) × Tells F.form kinds.now.room pool.now slot seen }
    ensures { Tells F.form kinds.now.room pool.now (slot + 1) result }
{
    with_number::<F>(seen, kinds, F::within(pool, slot))
}

// What is seen with four slots more: by hand, since a loop over them stays a loop, which takes 1.5 times the instructions.
fn with_four<F: SlotForm>(seen: Seen, kinds: &Kinds, pool: &[u8], i: usize) -> Seen
    requires { (i + 4 < slots_of F.form.width pool.now) × Tells F.form kinds.now.room pool.now i seen }
    ensures { Tells F.form kinds.now.room pool.now (i + 4) result }
{
    let a = with_slot::<F>(seen, kinds, pool, i);
    let b = with_slot::<F>(a, kinds, pool, i + 1);
    let c = with_slot::<F>(b, kinds, pool, i + 2);
    with_slot::<F>(c, kinds, pool, i + 3)
}

// What is seen with groups of eight more: a turn for each slot takes 1.1 to 1.2 times the instructions, for each four 1.03.
#[inline(always)]
fn with_eights<F: SlotForm>(
    seen: Seen,
    kinds: &Kinds,
    pool: &[u8],
    first: usize,
    groups: usize,
) -> Seen
    requires { (first + groups * 8 < slots_of F.form.width pool.now) × Tells F.form kinds.now.room pool.now first seen }
    ensures { Tells F.form kinds.now.room pool.now (first + groups * 8) result }
{
    let mut seen = seen;
    for j in 0..groups {
        let half = with_four::<F>(seen, kinds, pool, first + j * 8);
        seen = with_four::<F>(half, kinds, pool, first + j * 8 + 4);
    }
    seen
}

// What all slots show: the first ones one by one, so that groups of eight are left, and the last by itself, since no other follows it.
#[inline(always)]
fn slots_seen<F: SlotForm>(kinds: &Kinds, pool: &[u8], last: usize) -> Seen
    requires { last + 1 ≡ slots_of F.form.width pool.now }
    ensures { Tells F.form kinds.now.room pool.now (slots_of F.form.width pool.now) result }
{
    let first = last % 8;
    let mut seen = Seen {
        numbers: 0,
        sums: 0,
        empties: 0,
    };
    for i in 0..first {
        seen = with_slot::<F>(seen, kinds, pool, i);
    }
    let grouped = with_eights::<F>(seen, kinds, pool, first, last / 8);
    let end = F::alone(pool, last);
    with_number::<F>(grouped, kinds, end)
}

// How many slots are empty, where all are good: a field above its limit carries into its top bit, or shows there by itself.
#[inline(always)]
pub fn slots_tested<F: SlotForm>(s: u8, g: usize, pool: &[u8]) -> Option<usize>
    requires { (s ≤ 64) × (g ≤ 256) }
    ensures { result ≡ cond (F.form.all_good s g pool.now) (Some (how_many (slots_of F.form.width pool.now) (empty_at F.form.width pool.now))) None }
{
    let kinds = Kinds {
        room: F::rooms_of(s, g),
        one: [1, 0, 0, 0],
    };
    let n = F::slots(pool);
    if n == 0 {
        return Some(0);
    }
    let seen = slots_seen::<F>(&kinds, pool, n - 1);
    if F::is_clear(seen.numbers | seen.sums) {
        Some(seen.empties)
    } else {
        None
    }
}

// Whether every slot is good.
pub fn all_slots_good<F: SlotForm>(s: u8, g: usize, pool: &[u8]) -> bool
    requires { (s ≤ 64) × (g ≤ 256) }
    ensures { result ≡ F.form.all_good s g pool.now }
{
    slots_tested::<F>(s, g, pool).is_some()
}
