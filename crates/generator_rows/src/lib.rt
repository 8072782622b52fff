// The rows of the generators in the constant tables, and their degrees, by field and strength.
#![tactic(auto)]

ghost use Rattle.std.specs.Prelude.{◌≡◌, ◌+◌, ◌*◌, ◌≤◌, length};
ghost use Rattle.field.specs.Fields.{Known, field_of};
ghost use Rattle.generator.specs.Generator.{generator, width};
ghost use Rattle.tables.specs.Generators.{strengths};
ghost use Rattle.generator_rows.specs.Rows.{row, Row};

use element::Field;

// Row k of a table with w words a row, and zeros above.
fn row_of(table: &[u64], w: usize, k: usize) -> [u64; 13]
    requires { (w ≤ 13) × (w * k + w ≤ length table.now) }
    ensures { Row table.now (w * k) w result }
{
    let mut g = [0u64; 13];
    let s = w * k;
    g[..w].copy_from_slice(&table[s..s + w]);
    g
}

// The row of the generator of strength t.
pub fn generator_row(f: Field, t: usize) -> [u64; 13]
    requires { Known f.q × (1 ≤ t) × (t ≤ strengths f.q) }
    ensures { result ≡ row (generator (field_of f.q) t) }
{
    let k = t - 1;
    match f.q {
        4 => row_of(&tables::generators4(), 1, k),
        8 => row_of(&tables::generators8(k / 16), 4, k % 16),
        _ => row_of(&tables::generators12(k / 16), 12, k % 16),
    }
}

// The degree of the generator of strength t.
pub fn degree(f: Field, t: usize) -> u32
    requires { Known f.q × (1 ≤ t) × (t ≤ strengths f.q) }
    ensures { result ≡ width (field_of f.q) t }
{
    let g = generator_row(f, t);
    kernels::row::degree_of(&g) as u32
}
