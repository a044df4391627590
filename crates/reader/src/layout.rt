// Marks, and the bytes that a record of each is made of:
//
//   BK  ticker 3 letters, month 1 letter, year 2 digits, sessions 3, window from 3, window to 3
//   AC  identity 14 bytes, residency R or N
//   TR  buyer 2 digits, seller 2, price 6, contracts 4
//   QT  price 6 digits, quantity 4
//   NT  seller 2 digits, contracts 4
//   MK  price 6 digits, rate 7
//   DG, EX  alone
//
// A newline ends each.
ghost use Rattle.std.specs.Prelude.{◌≡◌, ◌+◌, ◌≤◌, length, OnSome};
ghost use Rattle.std.specs.List.{common_prefix_len};
ghost use Rattle.reader.specs.Layouts.{accepts, fitting, layout, marked, out_of_turn};

// What a byte of a record may be: a digit, a letter A to Z, any byte but a newline, R or N, the newline.
#[derive(Clone, Copy)]
pub(crate) enum Class {
    Digit,
    Letter,
    Text,
    Residence,
    Newline,
}

// The eight records, by the two bytes in front.
#[derive(Clone, Copy)]
pub(crate) enum Mark {
    Opening,
    Registration,
    Trade,
    Quotation,
    Notice,
    Marking,
    Designation,
    Expiry,
}

const D: Class = Class::Digit;

const L: Class = Class::Letter;

const T: Class = Class::Text;

const R: Class = Class::Residence;

const N: Class = Class::Newline;

static OPENING: [Class; 16] = [L, L, L, L, D, D, D, D, D, D, D, D, D, D, D, N];

static REGISTRATION: [Class; 16] = [T, T, T, T, T, T, T, T, T, T, T, T, T, T, R, N];

static TRADE: [Class; 15] = [D, D, D, D, D, D, D, D, D, D, D, D, D, D, N];

static QUOTATION: [Class; 11] = [D, D, D, D, D, D, D, D, D, D, N];

static NOTICE: [Class; 7] = [D, D, D, D, D, D, N];

static MARKING: [Class; 14] = [D, D, D, D, D, D, D, D, D, D, D, D, D, N];

static ALONE: [Class; 1] = [N];

impl Class {
    // Whether a byte is of the class.
    fn accepts(self, byte: u8) -> bool
        ensures value { result ≡ accepts self byte }
    {
        match self {
            Class::Digit => byte.is_ascii_digit(),
            Class::Letter => byte.is_ascii_uppercase(),
            Class::Text => byte != b'\n',
            Class::Residence => byte == b'R' || byte == b'N',
            Class::Newline => byte == b'\n',
        }
    }
}

impl Mark {
    // How many bytes a mark has.
    pub(crate) const WIDTH: usize = 2;

    // The mark that a line begins with.
    // No TryFrom: the line is more than its mark, and an error type would say no more than None.
    pub(crate) fn of(line: &[u8]) -> Option<Mark>
        ensures value { result ≡ marked line.now }
        ensures some { OnSome result (2 ≤ length line.now) }
    {
        match line.first_chunk()? {
            b"BK" => Some(Mark::Opening),
            b"AC" => Some(Mark::Registration),
            b"TR" => Some(Mark::Trade),
            b"QT" => Some(Mark::Quotation),
            b"NT" => Some(Mark::Notice),
            b"MK" => Some(Mark::Marking),
            b"DG" => Some(Mark::Designation),
            b"EX" => Some(Mark::Expiry),
            _ => None,
        }
    }

    // The classes of the bytes behind the mark.
    fn layout(self) -> &'static [Class]
        ensures value { result.now ≡ layout self }
    {
        match self {
            Mark::Opening => &OPENING,
            Mark::Registration => &REGISTRATION,
            Mark::Trade => &TRADE,
            Mark::Quotation => &QUOTATION,
            Mark::Notice => &NOTICE,
            Mark::Marking => &MARKING,
            Mark::Designation | Mark::Expiry => &ALONE,
        }
    }

    // A record that opens a book comes once, before any other.
    pub(crate) fn out_of_turn(self, opened: bool) -> bool
        ensures value { result ≡ out_of_turn opened self }
    {
        match self {
            Mark::Opening => opened,
            _ => !opened,
        }
    }

    // How many bytes a record has behind its mark.
    pub(crate) fn width(self) -> usize
        ensures value { result ≡ length (layout self) }
    {
        self.layout().len()
    }

    // How many bytes of a line fit behind its mark.
    pub(crate) fn fit(self, line: &[u8]) -> usize
        requires within { 2 ≤ length line.now }
        ensures value { result ≡ fitting self line.now }
        ensures bound { 2 + result ≤ length line.now }
    {
        fitting(self.layout(), &line[Self::WIDTH..])
    }
}

// How many bytes in front are as the classes have them.
fn fitting(classes: &[Class], bytes: &[u8]) -> usize
    ensures value { result ≡ common_prefix_len accepts classes.now bytes.now }
{
    classes
        .iter()
        .zip(bytes)
        .take_while(|(class, byte)| class.accepts(**byte))
        .count()
}
