// The numbers of a session, one after another; everything that is no digit is passed over.
ghost use Rattle.std.specs.Prelude.{◌≤◌, ◌<◌, length};

// A number this large takes no more digits.
const FULL: usize = 100000000;

// Lists up to this length are written out.
const WRITTEN_OUT: usize = 16;

// A number of the machine, in quarters.
pub(crate) fn quarters(value: usize) -> f64 {
    f64::from((value % 65536) as u16) / 4.0
}

// The bytes that are still to be read.
#[derive(Drop)]
pub(crate) struct Numbers<'a> {
    rest: &'a [u8],
}

impl<'a> Numbers<'a> {
    pub(crate) fn of(bytes: &'a [u8]) -> Numbers<'a> {
        Numbers { rest: bytes }
    }

    // What comes before the next digit is passed over.
    fn skip(&mut self) {
        let size = self.rest.len();
        let digit = self.rest.iter().position(|byte| byte.is_ascii_digit());
        self.rest = &self.rest[digit.unwrap_or(size)..];
    }

    // The next number; 0 after the last.
    pub(crate) fn next(&mut self) -> usize
        ensures { result < 10000000000 }
    {
        self.skip();
        let digits = self.rest;
        let mut value = 0;
        for (i, byte) in digits.iter().enumerate() {
            if FULL <= value || !byte.is_ascii_digit() {
                self.rest = &digits[i..];
                return value;
            }
            value = value * 10 + usize::from(*byte - b'0');
        }
        self.rest = &[];
        value
    }

    pub(crate) fn word(&mut self) -> u32 {
        (self.next() % 4294967296) as u32
    }

    pub(crate) fn quarters(&mut self) -> f64 {
        quarters(self.next())
    }

    // A count and so many numbers; no more than there is room for.
    pub(crate) fn row(&mut self, row: &mut [f64]) -> usize
        ensures { result ≤ length row.old }
    {
        let count = self.next().min(row.len());
        for cell in &mut row[..count] {
            *cell = self.quarters();
        }
        count
    }

    // A count and so many words; above 16 one word, so many times.
    pub(crate) fn words(&mut self, words: &mut [u32]) -> usize
        ensures { result ≤ length words.old }
    {
        let all = self.next();
        let count = all.min(words.len());
        if WRITTEN_OUT < all {
            words[..count].fill(self.word());
            return count;
        }
        for word in &mut words[..count] {
            *word = self.word();
        }
        count
    }
}
