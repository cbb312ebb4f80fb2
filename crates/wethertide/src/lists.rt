// List files.
ghost use Rattle.std.specs.Prelude.{◌≡◌, [], ◌∷◌};
ghost use Rattle.std.proofs.lemmas.List.Edits.{sets};
ghost use Rattle.list_file.specs.Reading.{read_answer, read_words};
ghost use Rattle.list_file.specs.Writing.{write_answer, write_bytes};
ghost use Rattle.wethertide.specs.Entries.{fits, ByRoom, placed_length};

use machine_words::row::put_words;
use words::refusal::{ACCEPTED, Refusal};

// The count of words read or the length of the file written, and a place.
const PLACED: usize = 2;

// Answers the refusal; the row of answers takes the count and the place.
#[unsafe(no_mangle)]
pub extern "C" fn wethertide_read_list(bytes: &[u8], words: &mut [u32], answer: &mut [u64]) -> u32
    ensures { ByRoom (fits placed_length answer.old)
        ((result ≡ (read_answer bytes.now words.old).refusal)
        × (words.new ≡ read_words bytes.now words.old)
        × (answer.new ≡ sets answer.old 0 ((read_answer bytes.now words.old).count ∷ (read_answer bytes.now words.old).place ∷ [])))
        ((result ≡ 11) × (words.new ≡ words.old) × (answer.new ≡ answer.old)) }
{
    if answer.len() < PLACED {
        return u32::from(Refusal::Room);
    }
    match list_file::reader::read(bytes, words) {
        Ok(read) => {
            put_words(answer, 0, &[read.count as u64, read.place as u64]);
            ACCEPTED
        }
        Err(refused) => {
            put_words(answer, 0, &[0, refused.place as u64]);
            u32::from(refused.refusal)
        }
    }
}

// Answers the refusal; the row of answers takes the length and the place. (Beside `wethertide_read_list` by the C interface: each is one call over rows of its own.)
#[unsafe(no_mangle)]
pub extern "C" fn wethertide_write_list(words: &[u32], bytes: &mut [u8], answer: &mut [u64]) -> u32
    ensures { ByRoom (fits placed_length answer.old)
        ((result ≡ (write_answer words.now bytes.old).refusal)
        × (bytes.new ≡ write_bytes words.now bytes.old)
        × (answer.new ≡ sets answer.old 0 ((write_answer words.now bytes.old).length ∷ (write_answer words.now bytes.old).place ∷ [])))
        ((result ≡ 11) × (bytes.new ≡ bytes.old) × (answer.new ≡ answer.old)) }
{
    if answer.len() < PLACED {
        return u32::from(Refusal::Room);
    }
    match list_file::writer::write(words, bytes) {
        Ok(written) => {
            put_words(answer, 0, &[written.length as u64, written.place as u64]);
            ACCEPTED
        }
        Err(refused) => {
            put_words(answer, 0, &[0, refused.place as u64]);
            u32::from(refused.refusal)
        }
    }
}
