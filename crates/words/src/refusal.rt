// 01's refusals, and their numbers.
ghost use Rattle.std.specs.Prelude.{◌≡◌};
ghost use Rattle.words.specs.Refusals.{number, answer_number, placed};

#[derive(Clone, Copy, Debug, PartialEq, Eq)]
pub enum Refusal {
    // The list, or a file's count, is above 4,096.
    List,
    // The operation is not 1 to 11.
    Operation,
    // The register is not 0, 2, 4 or 6.
    Register,
    // The cell is above 255, or not below the length of its area where areas are lent.
    Cell,
    // The step code is unknown.
    Code,
    // The machine is not in good order.
    Order,
    // A known step is not permitted now.
    NotNow,
    // The file ends inside a number or before one that is due.
    Cut,
    // A number is not in shortest form, or is above 65,535.
    Number,
    // Bytes are left after the last word.
    Left,
    // The lent buffer, log or file limit is too small.
    Room,
}

impl From<Refusal> for u32 {
    ghost from_gives = { λ r n. n ≡ number r };

    fn from(refusal: Refusal) -> u32 {
        match refusal {
            Refusal::List => 1,
            Refusal::Operation => 2,
            Refusal::Register => 3,
            Refusal::Cell => 4,
            Refusal::Code => 5,
            Refusal::Order => 6,
            Refusal::NotNow => 7,
            Refusal::Cut => 8,
            Refusal::Number => 9,
            Refusal::Left => 10,
            Refusal::Room => 11,
        }
    }
}

// A refusal with its place.
#[derive(Clone, Copy, Debug, PartialEq, Eq)]
pub struct Refused {
    pub refusal: Refusal,
    pub place: usize,
}

// Where only the refusal counts, `?` lets go of its place.
impl From<Refused> for Refusal {
    ghost from_gives = { λ placed refusal. refusal ≡ placed.refusal };

    fn from(refused: Refused) -> Refusal {
        refused.refusal
    }
}

impl Refusal {
    pub fn at(self, place: usize) -> Refused
        ensures { result ≡ record { refusal = self; place = place } }
    {
        Refused {
            refusal: self,
            place,
        }
    }
}

// An answer, its refusal with a place.
pub fn placed(answer: Result<(), Refusal>, place: usize) -> Result<(), Refused>
    ensures { result ≡ placed answer place }
{
    answer.map_err(|refusal| refusal.at(place))
}

// "0 means accepted."
pub const ACCEPTED: u32 = 0;

// The number of an answer.
pub fn number_of<A>(answer: &Result<A, Refusal>) -> u32
    ensures { result ≡ answer_number answer.now }
{
    match answer {
        Ok(_) => ACCEPTED,
        Err(refusal) => u32::from(*refusal),
    }
}
