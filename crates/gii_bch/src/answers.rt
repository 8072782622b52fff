// The requirement's number of an answer.
ghost use Rattle.std.specs.Prelude.{◌≡◌, ◌<◌, ◌^◌};
ghost use Rattle.code.specs.Answers.{answer_number};
ghost use Rattle.code.specs.Calls.{judgement_number, verdict_number};
ghost use Rattle.gii_bch.specs.Sizes.{size_found};

use code::{Judgement, Outcome, Refusal, Verdict};

// 0 for done, or the refusal's number.
pub fn outcome_number(r: Outcome) -> u32
    ensures { result ≡ answer_number r }
{
    code::number_of(&r) as u32
}

// 0 for a member, 32 + i for sub-word i, 64 + l for nested word l, 96 for blank.
fn verdict_number(v: Verdict) -> u32
    requires { verdict_number v < 128 }
    ensures { result ≡ verdict_number v }
{
    match v {
        Verdict::Member => 0,
        Verdict::Blank => 96,
        Verdict::SubWord(i) => 32 + i as u32,
        Verdict::NestedWord(l) => 64 + l as u32,
    }
}

// The same, or the refusal's number.
pub fn judgement_number(r: Judgement) -> u32
    requires { judgement_number r < 128 }
    ensures { result ≡ judgement_number r }
{
    match r {
        Ok(v) => verdict_number(v),
        Err(e) => e.number() as u32,
    }
}

// The size, or 0 for a refusal.
pub fn size_number(r: Result<usize, Refusal>) -> u32
    requires { size_found r < 2 ^ 32 }
    ensures { result ≡ size_found r }
{
    match r {
        Ok(size) => size as u32,
        Err(_) => 0,
    }
}
