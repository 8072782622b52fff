// The constant tables of each field: powers of alpha, their logs, and its generators.
#![tactic(auto)]

ghost use Rattle.std.specs.Prelude.{◌*◌, ◌<◌};
ghost use Rattle.tables.specs.Generators.{Generators};
ghost use Rattle.tables.specs.Tables.{Powers, Logs};

mod powers; // powers.rt: the constants
mod logs; // logs.rt: the constants
mod generators; // generators.rt: the constants

// The tables by value. A read of a constant copies it whole: take a table once, and lend it down.
pub fn powers4() -> [u16; 15]
    ensures { Powers 4 result }
{
    powers::POWERS4
}

pub fn powers8() -> [u16; 255]
    ensures { Powers 8 result }
{
    powers::POWERS8
}

pub fn powers12() -> [u16; 4095]
    ensures { Powers 12 result }
{
    powers::POWERS12
}

pub fn logs4() -> [u16; 16]
    ensures { Logs 4 result }
{
    logs::LOGS4
}

pub fn logs8() -> [u16; 256]
    ensures { Logs 8 result }
{
    logs::LOGS8
}

pub fn logs12() -> [u16; 4096]
    ensures { Logs 12 result }
{
    logs::LOGS12
}

pub fn generators4() -> [u64; 7]
    ensures { Generators 4 1 0 7 result }
{
    generators::GENERATORS4
}

// Block b: the generators of strength 16 b + 1 to 16 b + 16.
pub fn generators8(b: usize) -> [u64; 64]
    requires { b < 4 }
    ensures { Generators 8 4 (16 * b) 16 result }
{
    if b == 0 {
        return generators::GENERATORS8_0;
    }
    if b == 1 {
        return generators::GENERATORS8_1;
    }
    if b == 2 {
        return generators::GENERATORS8_2;
    }
    generators::GENERATORS8_3
}

pub fn generators12(b: usize) -> [u64; 192]
    requires { b < 4 }
    ensures { Generators 12 12 (16 * b) 16 result }
{
    if b == 0 {
        return generators::GENERATORS12_0;
    }
    if b == 1 {
        return generators::GENERATORS12_1;
    }
    if b == 2 {
        return generators::GENERATORS12_2;
    }
    generators::GENERATORS12_3
}
