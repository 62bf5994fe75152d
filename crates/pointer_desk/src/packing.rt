// Byte cells as words, and back (Document 02, Five).
ghost use Rattle.std.specs.Prelude.{◌≡◌};
ghost use Rattle.word_cells.specs.WordCells.{pack as pack_of, unpack as unpack_of};
ghost use Rattle.pointer_desk.specs.Boundary.{numbered};

use crate::answer::DeskAnswer;
use bits::pack::pack;
use bits::unpack::unpack;

// Byte cells as words.
#[unsafe(no_mangle)]
pub extern "C" fn desk_words_pack(sites: u8, receive: &[u8], words: &mut [u64]) -> u8
    ensures { record { number = result; counts = words.new } ≡ numbered (pack_of sites receive.now words.old) }
{
    DeskAnswer::from(pack(sites, receive, words)).number
}

// Words as byte cells.
#[unsafe(no_mangle)]
pub extern "C" fn desk_words_unpack(sites: u8, words: &[u64], receive: &mut [u8]) -> u8
    ensures { record { number = result; counts = receive.new } ≡ numbered (unpack_of sites words.now receive.old) }
{
    DeskAnswer::from(unpack(sites, words, receive)).number
}
