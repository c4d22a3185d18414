// The kind's word, with which a term begins.
ghost use Rattle.std.specs.Prelude.{◌≤◌, ◌<◌, ◌≡◌, IfSome, length};
ghost use Rattle.table.specs.Decoded.{name_of};
ghost use Rattle.forms.specs.Kinds.{kind_word, KindRead};

use words::literals::read_packed;
use words::names::read_word;
use words::{Reading, Stuck, Taken, shifted};

// The words of the kinds, packed as names are: the first byte lowest.
const DELTA: u64 = 0x61746c6564;

const TAU: u64 = 0x756174;

const ACT: u64 = 0x746361;

const REF: u64 = 0x666572;

const SUM: u64 = 0x6d7573;

const COND: u64 = 0x646e6f63;

const CHOICE: u64 = 0x6563696f6863;

const IFELSE: u64 = 0x65736c656669;

const SEQ: u64 = 0x716573;

const MERGE: u64 = 0x656772656d;

const LMERGE: u64 = 0x656772656d6c;

const SYNC: u64 = 0x636e7973;

const BLOCK: u64 = 0x6b636f6c62;

const HIDE: u64 = 0x65646968;

const RENAME: u64 = 0x656d616e6572;

const COMM: u64 = 0x6d6d6f63;

const ALLOW: u64 = 0x776f6c6c61;

// By their numbers.
const KINDS: [u64; 17] = [
    DELTA, TAU, ACT, REF, SUM, COND, CHOICE, IFELSE, SEQ, MERGE, LMERGE, SYNC, BLOCK, HIDE, RENAME,
    COMM, ALLOW,
];

// The number of the kind with this word, if there is one.
fn kind_number(word: u64) -> Option<usize>
    ensures { IfSome result (λ k. (k < 17) × (name_of 8 word ≡ kind_word k)) }
{
    match word {
        DELTA => Some(0),
        TAU => Some(1),
        ACT => Some(2),
        REF => Some(3),
        SUM => Some(4),
        COND => Some(5),
        CHOICE => Some(6),
        IFELSE => Some(7),
        SEQ => Some(8),
        MERGE => Some(9),
        LMERGE => Some(10),
        SYNC => Some(11),
        BLOCK => Some(12),
        HIDE => Some(13),
        RENAME => Some(14),
        COMM => Some(15),
        ALLOW => Some(16),
        _ => None,
    }
}

// The kind whose word stands at a place, by trying every word: also where more letters follow it. Where none stands there this
// finds how far the text agrees with one.
fn try_kinds(text: &[u8], at: usize) -> Reading<usize>
    requires { at ≤ length text.now }
    ensures { KindRead text.now at result }
{
    // In a local of its own, or the whole table would be laid out again for each word.
    let words = KINDS;
    let mut far = at;
    for k in (0..words.len()).rev() {
        // This is a search and no reading step: a word that reads ends it, and one that does not is passed over.
        match shifted(read_packed(&text[at..], words[k]), at) {
            Ok(word) => {
                return Ok(Taken {
                    value: k,
                    bytes: word.bytes,
                });
            }
            Err(stuck) => far = stuck.after.max(far),
        }
    }
    Err(Stuck { after: far })
}

// The kind whose word stands at a place: in a right line the letters there are no more than the word.
pub fn find_kind(text: &[u8], at: usize) -> Reading<usize>
    requires { at ≤ length text.now }
    ensures { KindRead text.now at result }
{
    let Ok(letters) = shifted(read_word(&text[at..]), at) else {
        return try_kinds(text, at);
    };
    let Some(k) = kind_number(letters.value) else {
        return try_kinds(text, at);
    };
    Ok(Taken {
        value: k,
        bytes: letters.bytes,
    })
}
