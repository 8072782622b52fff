// The code's parameters and the answers of its calls, as types. Definitions stand in specs/, theorems in proofs/.
#![tactic(auto)]

ghost use Rattle.std.specs.Prelude.{◌≡◌};
ghost use Rattle.code.specs.Answers.{answer_number, refusal_number};

// The parameters of a code: the requirement's sheet. Its strengths t0 to t3 are the errors each level corrects; places past v are 0.
// The top s coefficients of every sub-word are 0 and not stored.
#[derive(Clone, Copy, Debug, PartialEq, Eq)]
pub struct Parameters {
    pub q: u32,
    pub m: u32,
    pub v: u32,
    pub t0: u32,
    pub t1: u32,
    pub t2: u32,
    pub t3: u32,
    pub s: u32,
}

// Why a call refuses, by the requirement's numbers.
#[derive(Clone, Copy, Debug, PartialEq, Eq)]
pub enum Refusal {
    Field = 1, // q is not 4, 8 or 12
    Shape = 2, // v or m is out of range
    Strengths = 3, // a rule on t0 to t_v is broken, or a place past v is not 0
    Clash = 4, // some d × j is a multiple of n
    Width = 5, // the width is not 1 to 64
    Blocks = 6, // the blocks' length is not exact
    Page = 7, // a page's length is not exact
    Stray = 8, // a spare or unused bit that is read is 1
    Index = 9, // no such sub-word, nested word, block, bit, level or count
    List = 10, // a list's length is not exact
    Full = 11, // a register would take more than n - s coefficients
    Register = 12, // a register's level or remainder is out of range
    Blank = 13, // the page would be blank
    Shortening = 14, // s is above n - w_v - 1
    Unmended = 15, // no multiple of g_0 is near enough
    Reserved = 16, // no call's
    UnmendedPage = 17, // no member comes of the page
}

impl Refusal {
    pub fn number(self) -> u8
        ensures { result ≡ refusal_number self }
    {
        self as u8
    }
}

// The requirement's number of an answer: 0, or the refusal's.
pub fn number_of<T>(r: &Result<T, Refusal>) -> u8
    ensures { result ≡ answer_number r.now }
{
    match r {
        Ok(_) => 0,
        Err(e) => e.number(),
    }
}

// The answer of a call that makes something.
pub type Outcome = Result<(), Refusal>;

// What is said of a page: member, blank, or the first word that fails.
#[derive(Clone, Copy, Debug, PartialEq, Eq)]
pub enum Verdict {
    Member,
    Blank,
    SubWord(usize),
    NestedWord(usize),
}

// The answer of judge and of read out.
pub type Judgement = Result<Verdict, Refusal>;
