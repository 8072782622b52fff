// Pages written at several widths, judged, read out and written again, of shortened sheets too; pages with a byte changed judged; erased
// pages judged, read out and refused; three pages written in one call and one by one; one bit altered in a page and in its blocks; a page
// with one coefficient flipped mended.
// Each equality is expected as the program runs, and proved of every run:
// from what the calls promise and the theorems on the promises, and nothing of how a page is made.
#![tactic(auto)]

ghost use Rattle.std.specs.Prelude.{Ok, ◌≡◌, [], ◌∷◌, true, ◌*◌, ◌≤◌, ◌<◌, length, get_or};
ghost use Rattle.polynomial.specs.Sums.{add};
ghost use Rattle.code.specs.Answers.{answer_number};
ghost use Rattle.code.specs.Calls.{Written, judge_answer, outcome, statuses};
ghost use Rattle.code.specs.Demands.{QuotedPage};
ghost use Rattle.code.specs.Layout.{IsBlank, IsPage, data_bytes, page_bytes};
ghost use Rattle.code.specs.Parameters.{Accepted, stored, strength};
ghost use Rattle.code.specs.Refused.{BlocksBuffer, PageBuffer, Width};
ghost use Rattle.code.specs.declared.Verdict.{Verdict};
ghost use Rattle.gate_rounds.specs.Altered.{Twins};
ghost use Rattle.gate_rounds.specs.Answers.{is_blank, is_done, is_member};
ghost use Rattle.gate_rounds.specs.Apt.{Apt};
ghost use Rattle.gate_rounds.specs.Mended.{struck};
ghost use Rattle.gate_rounds.specs.Singles.{Each, Listable, rooms};

use code::{Judgement, Outcome, Parameters, Verdict};

// ---- answers

fn number(r: Outcome) -> u8
    ensures { result ≡ answer_number r }
{
    code::number_of(&r)
}

fn done(r: Outcome) -> bool
    ensures { result ≡ is_done r }
{
    r.is_ok()
}

fn member(r: Judgement) -> bool
    ensures { result ≡ is_member r }
{
    matches!(r, Ok(Verdict::Member))
}

fn blank(r: Judgement) -> bool
    ensures { result ≡ is_blank r }
{
    matches!(r, Ok(Verdict::Blank))
}

// The sum of two lists of bytes, byte by byte.
fn add_bytes(a: &[u8], b: &[u8], sum: &mut [u8])
    requires { (length a.now ≡ length b.now) × (length sum.old ≡ length a.now) }
    ensures { sum.new ≡ add a.now b.now }
{
    for i in 0..sum.len() {
        sum[i] = a[i] ^ b[i];
    }
}

// ---- the laws, for all accepted parameters

// At two widths: the same answer, refused or not, and if it is done the same page. The blocks are any bytes.
fn two_widths(p: Parameters, l: u32, m: u32, blocks: &[u8], one: &mut [u8], two: &mut [u8])
    requires { Accepted p × Width l × Width m × (length one.old ≡ length two.old) }
{
    let r = page::write(p, l, blocks, one);
    let s = page::write(p, m, blocks, two);
    check::expect(number(r) == number(s));
    if !done(r) {
        return;
    }
    check::expect(check::same(one, two));
}

// Writes blocks that fit, whose page is not blank.
fn put(p: Parameters, l: u32, blocks: &[u8], page: &mut [u8])
    requires { Accepted p × Width l × Apt p blocks.now × PageBuffer p page.old }
    ensures { Written p l blocks.now page.old page.new (Ok tt) }
{
    let r = page::write(p, l, blocks, page);
    check::expect(done(r));
}

// Such blocks: their page is a member; read out, it gives the blocks; these written at another width give the page.
fn round(
    p: Parameters,
    l: u32,
    m: u32,
    blocks: &[u8],
    page: &mut [u8],
    back: &mut [u8],
    again: &mut [u8],
)
    requires { Accepted p × Width l × Width m × Apt p blocks.now × PageBuffer p page.old × BlocksBuffer p back.old
        × PageBuffer p again.old }
    ensures { IsPage p page.new × (judge_answer p page.new ≡ Ok Verdict.Member) }
{
    put(p, l, blocks, page);
    let j = page::judge(p, page);
    check::expect(member(j));
    let r = page::read_out(p, page, back);
    check::expect(member(r));
    check::expect(check::same(back, blocks));
    put(p, m, back, again);
    check::expect(check::same(again, page));
}

// The quote is done, and the page of such blocks has the check and data bits quoted.
fn quoted(p: Parameters, l: u32, blocks: &[u8], page: &mut [u8], list: &mut [u16])
    requires { Accepted p × Width l × Apt p blocks.now × PageBuffer p page.old × (length list.old ≡ 12) }
    ensures { QuotedPage p (λ j. get_or list.new j 0) blocks.now page.new }
{
    let r = sizes::quote(p, list);
    check::expect(done(r));
    put(p, l, blocks, page);
}

// The page of a sum is the sum of the pages, where none of the three is blank.
fn sums(
    p: Parameters,
    k: u32,
    l: u32,
    m: u32,
    a: &[u8],
    b: &[u8],
    ab: &mut [u8],
    x: &mut [u8],
    y: &mut [u8],
    xy: &mut [u8],
    sum: &mut [u8],
)
    requires { Accepted p × Width k × Width l × Width m × Apt p a.now × Apt p b.now × BlocksBuffer p ab.old × PageBuffer p x.old
        × PageBuffer p y.old × PageBuffer p xy.old × PageBuffer p sum.old × Apt p (add a.now b.now) }
{
    add_bytes(a, b, ab);
    put(p, k, a, x);
    put(p, l, b, y);
    let r = page::write(p, m, ab, xy);
    check::expect(done(r));
    add_bytes(x, y, sum);
    check::expect(check::same(xy, sum));
}

// Any page is a member exactly when the writing of its blocks is done and gives the page: by judge's answer and by read out's. Is it one?
fn rewrites(p: Parameters, l: u32, page: &[u8], blocks: &mut [u8], again: &mut [u8]) -> bool
    requires { Accepted p × Width l × IsPage p page.now × BlocksBuffer p blocks.old × PageBuffer p again.old }
    ensures { result ≡ is_member (judge_answer p page.now) }
{
    let j = page::judge(p, page);
    let r = page::read_out(p, page, blocks);
    let w = page::write(p, l, blocks, again);
    let same = done(w) && check::same(again, page);
    let judged = member(j);
    check::expect(judged == same);
    check::expect(member(r) == same);
    judged
}

// An erased page, its spare bits set or not, of a sheet that is not shortened: blank by judge and by read out; its blocks are refused, and the
// buffer stays as it was.
fn erased(p: Parameters, l: u32, page: &[u8], blocks: &mut [u8], again: &mut [u8], old: &[u8])
    requires { Accepted p × Width l × PageBuffer p page.now × IsBlank p page.now × BlocksBuffer p blocks.old
        × PageBuffer p again.old × (old.now ≡ again.old) × (p.s ≡ 0) }
{
    let j = page::judge(p, page);
    check::expect(blank(j));
    let r = page::read_out(p, page, blocks);
    check::expect(blank(r));
    let w = page::write(p, l, blocks, again);
    check::expect(number(w) == 13);
    check::expect(check::same(again, old));
}

// One byte of a member changed, whichever it is: no member.
fn scratched(p: Parameters, page: &mut [u8], k: usize, e: u8)
    requires { Accepted p × IsPage p page.old × (judge_answer p page.old ≡ Ok Verdict.Member) × (k < length page.old) × (1 ≤ e) }
{
    page[k] ^= e;
    let j = page::judge(p, page);
    check::expect(!member(j));
}

// Blocks a and b that differ in bit r of block i alone, which is y in a and x in b: the page of a, that bit made x, is the page of b, and
// read out it gives b; made y again, it is the page of a.
fn altered(
    p: Parameters,
    l: u32,
    m: u32,
    a: &[u8],
    b: &[u8],
    i: u32,
    r: u32,
    x: u32,
    y: u32,
    page: &mut [u8],
    first: &mut [u8],
    other: &mut [u8],
    back: &mut [u8],
)
    requires { Accepted p × Width l × Width m × Twins p a.now b.now i r x y × PageBuffer p page.old × PageBuffer p first.old
        × PageBuffer p other.old × BlocksBuffer p back.old }
{
    put(p, l, a, page);
    put(p, m, a, first);
    put(p, m, b, other);
    let to = alter::alter(p, page, i, r, x);
    check::expect(done(to));
    check::expect(check::same(page, other));
    let v = page::read_out(p, page, back);
    check::expect(member(v));
    check::expect(check::same(back, b));
    let from = alter::alter(p, page, i, r, y);
    check::expect(done(from));
    check::expect(check::same(page, first));
}

// The coefficient of x^e of sub-word i is flipped.
fn strike(p: Parameters, page: &mut [u8], i: usize, e: usize)
    requires { Accepted p × PageBuffer p page.old × (i < p.m) × (e < stored p) }
    ensures { page.new ≡ struck p page.old i e }
{
    let b = layout::sub_word_bytes(p);
    let at = i * b;
    let end = at + b;
    layout::flip(&mut page[at..end], e);
}

// The page of blocks with one coefficient of sub-word i flipped: mended, it is the page again, of one flip, and a member.
fn mended(
    p: Parameters,
    l: u32,
    m: u32,
    a: &[u8],
    i: usize,
    e: usize,
    page: &mut [u8],
    first: &mut [u8],
    list: &mut [u16],
)
    requires { Accepted p × Width l × Width m × Apt p a.now × (i < p.m) × (e < stored p) × PageBuffer p page.old
        × PageBuffer p first.old × (length list.old ≡ strength p 0) }
{
    put(p, l, a, page);
    put(p, m, a, first);
    strike(p, page, i, e);
    let mut n: u8 = 0xaa;
    let o = mend::mend(p, page, i, list, &mut n);
    check::expect(done(o));
    check::expect(check::same(page, first));
    check::expect(n == 1);
    let v = page::judge(p, page);
    check::expect(member(v));
}

// ---- many pages in one call

// Is it a number that is listed? Of 0, 8 and 13 it is.
fn listable(n: u8) -> bool
    ensures { Listable n → result ≡ true }
{
    matches!(n, 0 | 8 | 13)
}

// A page of such a call and its listed byte, beside a single call over the same bytes: the same number, the same page, and where it is
// refused the page as it was.
fn single(p: Parameters, l: u32, blocks: &[u8], page: &[u8], said: u8, one: &mut [u8], old: &[u8])
    requires { Written p l blocks.now one.old page.now (outcome said) × (old.now ≡ one.old) × Listable said }
{
    check::expect(listable(said));
    let r = page::write(p, l, blocks, one);
    check::expect(number(r) == said);
    check::expect(check::same(one, page));
    if done(r) {
        return;
    }
    check::expect(check::same(page, old));
}

// Page k, with rooms for it; its blocks take b bytes and it has n.
fn single_rooms(
    p: Parameters,
    l: u32,
    k: usize,
    blocks: &[u8],
    pages: &[u8],
    list: &[u8],
    b: usize,
    n: usize,
)
    requires { Each p l blocks.now pages.now list.now × (k < length list.now) × (b ≡ data_bytes p) × (n ≡ page_bytes p)
        × (b ≤ 1024) × (n ≤ 1024) }
{
    let mut one = [0xa5u8; 1024];
    let old = [0xa5u8; 1024];
    let at = k * b;
    let end = at + b;
    let start = k * n;
    let stop = start + n;
    let said = list[k];
    single(
        p,
        l,
        &blocks[at..end],
        &pages[start..stop],
        said,
        &mut one[..n],
        &old[..n],
    );
}

// Each page.
fn singles(p: Parameters, l: u32, blocks: &[u8], pages: &[u8], list: &[u8], b: usize, n: usize)
    requires { Each p l blocks.now pages.now list.now × (b ≡ data_bytes p) × (n ≡ page_bytes p) × (b ≤ 1024) × (n ≤ 1024) }
{
    for k in 0..list.len() {
        single_rooms(p, l, k, blocks, pages, list, b, n);
    }
}

// Three pages: the call is done, whatever bytes the blocks are.
fn three(
    p: Parameters,
    l: u32,
    blocks: &[u8],
    pages: &mut [u8],
    list: &mut [u8],
    b: usize,
    n: usize,
)
    requires { Accepted p × Width l × (length blocks.now ≡ 3 * data_bytes p) × (pages.old ≡ rooms (page_bytes p))
        × (length list.old ≡ 3) × (b ≡ data_bytes p) × (n ≡ page_bytes p) × (b ≤ 1024) × (n ≤ 1024) }
    ensures { list.new ≡ statuses p l 3 blocks.now }
{
    let r = page::write_many(p, l, 3, blocks, pages, list);
    check::expect(done(r));
    singles(p, l, blocks, pages, list, b, n);
}

// With rooms; what is listed.
fn three_rooms(p: Parameters, l: u32, blocks: &[u8], b: usize, n: usize) -> [u8; 3]
    requires { Accepted p × Width l × (length blocks.now ≡ 3 * data_bytes p) × (b ≡ data_bytes p) × (n ≡ page_bytes p) × (b ≤ 1024)
        × (n ≤ 1024) }
    ensures { result ≡ statuses p l 3 blocks.now }
{
    let mut pages = [0xa5u8; 3072];
    let mut list = [0xffu8; 3];
    let size = 3 * n;
    three(p, l, blocks, &mut pages[..size], &mut list, b, n);
    list
}

// And it is x, y and z.
fn three_listed(p: Parameters, l: u32, blocks: &[u8], b: usize, n: usize, x: u8, y: u8, z: u8)
    requires { Accepted p × Width l × (length blocks.now ≡ 3 * data_bytes p) × (b ≡ data_bytes p) × (n ≡ page_bytes p) × (b ≤ 1024)
        × (n ≤ 1024) × (statuses p l 3 blocks.now ≡ (x ∷ y ∷ z ∷ [])) }
{
    let said = three_rooms(p, l, blocks, b, n);
    check::expect(said[0] == x);
    check::expect(said[1] == y);
    check::expect(said[2] == z);
}

// ---- the laws on blocks a and b that fit and make no blank page, nor does their sum, at some widths

// Blocks a and b, and other bytes, refused alike where they do not fit.
fn widths(p: Parameters, a: &[u8], b: &[u8], other: &[u8], x: &mut [u8], y: &mut [u8])
    requires { Accepted p × (length x.old ≡ length y.old) }
{
    two_widths(p, 1, 64, a, x, y);
    two_widths(p, 7, 8, b, x, y);
    two_widths(p, 63, 2, other, x, y);
}

// The page of a is a member by rewriting too, and with a byte of it changed is none.
fn round_again(p: Parameters, a: &[u8], back: &mut [u8], x: &mut [u8], y: &mut [u8])
    requires { Accepted p × Apt p a.now × BlocksBuffer p back.old × PageBuffer p x.old × PageBuffer p y.old }
{
    round(p, 8, 33, a, x, back, y);
    check::expect(rewrites(p, 5, x, back, y));
    scratched(p, x, x.len() / 2, 0x81);
}

fn on(
    p: Parameters,
    a: &[u8],
    b: &[u8],
    ab: &mut [u8],
    x: &mut [u8],
    y: &mut [u8],
    z: &mut [u8],
    sum: &mut [u8],
)
    requires { Accepted p × Apt p a.now × Apt p b.now × BlocksBuffer p ab.old × PageBuffer p x.old × PageBuffer p y.old
        × PageBuffer p z.old × PageBuffer p sum.old × Apt p (add a.now b.now) }
{
    widths(p, a, b, sum, x, y);
    round_again(p, a, ab, x, y);
    sums(p, 1, 31, 64, a, b, ab, x, y, z, sum);
}

// With rooms for blocks and pages of up to 1024 bytes; a page has n.
fn on_rooms(p: Parameters, a: &[u8], b: &[u8], n: usize)
    requires { Accepted p × Apt p a.now × Apt p b.now × (n ≡ page_bytes p) × (length a.now ≤ 1024) × (n ≤ 1024)
        × Apt p (add a.now b.now) }
{
    let k = a.len();
    let mut ab = [0x00u8; 1024];
    let mut x = [0x00u8; 1024];
    let mut y = [0xffu8; 1024];
    let mut z = [0x55u8; 1024];
    let mut sum = [0xaau8; 1024];
    on(
        p,
        a,
        b,
        &mut ab[..k],
        &mut x[..n],
        &mut y[..n],
        &mut z[..n],
        &mut sum[..n],
    );
}

// And on any page x, whose blocks take k bytes. Is it a member?
fn rewrites_rooms(p: Parameters, x: &[u8], k: usize) -> bool
    requires { Accepted p × IsPage p x.now × (k ≡ data_bytes p) × (k ≤ 1024) × (length x.now ≤ 1024) }
    ensures { result ≡ is_member (judge_answer p x.now) }
{
    let n = x.len();
    let mut blocks = [0x5au8; 1024];
    let mut again = [0xa5u8; 1024];
    rewrites(p, 64, x, &mut blocks[..k], &mut again[..n])
}

// And the quote, beside the page of a.
fn quoted_rooms(p: Parameters, a: &[u8], n: usize)
    requires { Accepted p × Apt p a.now × (n ≡ page_bytes p) × (n ≤ 1024) }
{
    let mut page = [0x33u8; 1024];
    let mut list = [0xffffu16; 12];
    quoted(p, 9, a, &mut page[..n], &mut list);
}

// And the erased page x, whose blocks take k bytes.
fn erased_rooms(p: Parameters, x: &[u8], k: usize)
    requires { Accepted p × PageBuffer p x.now × IsBlank p x.now × (k ≡ data_bytes p) × (k ≤ 1024) × (length x.now ≤ 1024)
        × (p.s ≡ 0) }
{
    let n = x.len();
    let mut blocks = [0x5au8; 1024];
    let mut again = [0xa5u8; 1024];
    let old = [0xa5u8; 1024];
    erased(p, 17, x, &mut blocks[..k], &mut again[..n], &old[..n]);
}

// And blocks a and b that differ in one bit.
fn altered_rooms(p: Parameters, a: &[u8], b: &[u8], i: u32, r: u32, x: u32, y: u32, n: usize)
    requires { Accepted p × Twins p a.now b.now i r x y × (n ≡ page_bytes p) × (length a.now ≤ 64) × (n ≤ 64) }
{
    let k = a.len();
    let mut page = [0x00u8; 64];
    let mut first = [0xffu8; 64];
    let mut other = [0x55u8; 64];
    let mut back = [0xaau8; 64];
    altered(
        p,
        8,
        33,
        a,
        b,
        i,
        r,
        x,
        y,
        &mut page[..n],
        &mut first[..n],
        &mut other[..n],
        &mut back[..k],
    );
}

// And blocks whose page is mended; its list has t numbers.
fn mended_rooms(p: Parameters, a: &[u8], i: usize, e: usize, n: usize, t: usize)
    requires { Accepted p × Apt p a.now × (i < p.m) × (e < stored p) × (n ≡ page_bytes p) × (n ≤ 64) × (t ≡ strength p 0) × (t ≤ 4) }
{
    let mut page = [0x00u8; 64];
    let mut first = [0xffu8; 64];
    let mut list = [0xa5u16; 4];
    mended(
        p,
        8,
        33,
        a,
        i,
        e,
        &mut page[..n],
        &mut first[..n],
        &mut list[..t],
    );
}

// The laws on blocks a and b and on any page x. Is it a member?
fn holds(p: Parameters, a: &[u8], b: &[u8], x: &[u8]) -> bool
    requires { Accepted p × Apt p a.now × Apt p b.now × IsPage p x.now × (length a.now ≤ 1024) × (length x.now ≤ 1024)
        × Apt p (add a.now b.now) }
    ensures { result ≡ is_member (judge_answer p x.now) }
{
    on_rooms(p, a, b, x.len());
    quoted_rooms(p, a, x.len());
    rewrites_rooms(p, x, a.len())
}

// Three pages of some sheets.
fn boards() {
    // sheet A: blocks that are written, stray ones, and ones
    let p = Parameters {
        q: 4,
        m: 2,
        v: 1,
        t0: 1,
        t1: 2,
        t2: 0,
        t3: 0,
        s: 0,
    };
    let blocks = [0x01u8, 0x01, 0x00, 0x80, 0x01, 0x00, 0x7f, 0xff, 0x07];
    three_listed(p, 8, &blocks, 3, 4, 0, 8, 13);
    // with s 3 ones are written; the stray ones stand last
    let p = Parameters {
        q: 4,
        m: 2,
        v: 1,
        t0: 1,
        t1: 2,
        t2: 0,
        t3: 0,
        s: 3,
    };
    let blocks = [0x0fu8, 0xff, 0x02, 0x01, 0x10, 0x00];
    three_listed(p, 1, &blocks, 2, 4, 0, 0, 8);
    // q = 8, all refused, and q = 12
    let p = Parameters {
        q: 8,
        m: 2,
        v: 1,
        t0: 1,
        t1: 2,
        t2: 0,
        t3: 0,
        s: 0,
    };
    let blocks = [0xffu8; 183];
    three_listed(p, 64, &blocks, 61, 64, 8, 8, 8);
    let p = Parameters {
        q: 12,
        m: 2,
        v: 1,
        t0: 1,
        t1: 2,
        t2: 0,
        t3: 0,
        s: 0,
    };
    let blocks = [0x06u8; 3060];
    three_rooms(p, 33, &blocks, 1020, 1024);
}

// One bit of the blocks of some sheets: in the first block its last bit, in a middle one, and in the last.
fn bits() {
    // sheet A
    let p = Parameters {
        q: 4,
        m: 2,
        v: 1,
        t0: 1,
        t1: 2,
        t2: 0,
        t3: 0,
        s: 0,
    };
    let a = [0x02u8, 0x01, 0x00];
    let mut b = a;
    b[0] ^= 0x40;
    altered_rooms(p, &a, &b, 0, 6, 1, 0, 4);
    // sheet B
    let p = Parameters {
        q: 4,
        m: 3,
        v: 2,
        t0: 1,
        t1: 2,
        t2: 3,
        t3: 0,
        s: 0,
    };
    let a = [0x00u8, 0x08, 0x01, 0x00];
    let mut b = a;
    b[1] ^= 0x08;
    altered_rooms(p, &a, &b, 1, 3, 0, 1, 6);
    // sheet A with s 3
    let p = Parameters {
        q: 4,
        m: 2,
        v: 1,
        t0: 1,
        t1: 2,
        t2: 0,
        t3: 0,
        s: 3,
    };
    let a = [0x02u8, 0x01];
    let mut b = a;
    b[1] ^= 0x80;
    altered_rooms(p, &a, &b, 1, 7, 1, 0, 4);
    // q = 8
    let p = Parameters {
        q: 8,
        m: 2,
        v: 1,
        t0: 1,
        t1: 2,
        t2: 0,
        t3: 0,
        s: 0,
    };
    let a = [0x06u8; 61];
    let mut b = a;
    b[40] ^= 0x10;
    altered_rooms(p, &a, &b, 1, 84, 1, 0, 64);
}

// One coefficient of a sub-word of some sheets: the last, one within, and the first.
fn flaws() {
    // sheet A
    let p = Parameters {
        q: 4,
        m: 2,
        v: 1,
        t0: 1,
        t1: 2,
        t2: 0,
        t3: 0,
        s: 0,
    };
    let a = [0x02u8, 0x01, 0x00];
    mended_rooms(p, &a, 0, 14, 4, 1);
    // q = 4 with t_0 2
    let p = Parameters {
        q: 4,
        m: 3,
        v: 1,
        t0: 2,
        t1: 3,
        t2: 0,
        t3: 0,
        s: 0,
    };
    let a = [0x02u8, 0x01, 0x00];
    mended_rooms(p, &a, 1, 7, 6, 2);
    // sheet A with s 3, its last coefficient
    let p = Parameters {
        q: 4,
        m: 2,
        v: 1,
        t0: 1,
        t1: 2,
        t2: 0,
        t3: 0,
        s: 3,
    };
    let a = [0x02u8, 0x01];
    mended_rooms(p, &a, 1, 11, 4, 1);
    // q = 8
    let p = Parameters {
        q: 8,
        m: 2,
        v: 1,
        t0: 1,
        t1: 2,
        t2: 0,
        t3: 0,
        s: 0,
    };
    let a = [0x06u8; 61];
    mended_rooms(p, &a, 1, 0, 64, 1);
}

fn main() {
    boards();
    bits();
    flaws();
    // the requirement's sheet A, with its member C2 01 13 00, its page of a failing nested word and its erased pages
    let p = Parameters {
        q: 4,
        m: 2,
        v: 1,
        t0: 1,
        t1: 2,
        t2: 0,
        t3: 0,
        s: 0,
    };
    let a = [0x02u8, 0x01, 0x00];
    let b = [0x7eu8, 0xff, 0x07];
    let x = [0xc2u8, 0x01, 0x13, 0x00];
    let y = [0x13u8, 0x00, 0x00, 0x00];
    let z = [0xffu8, 0x7f, 0xff, 0x7f];
    let e = [0xffu8, 0xff, 0xff, 0xff];
    check::expect(holds(p, &a, &b, &x));
    check::expect(!holds(p, &a, &b, &y));
    check::expect(!holds(p, &a, &b, &z));
    erased_rooms(p, &z, 3);
    erased_rooms(p, &e, 3);
    // sheet B, with its page 26 00 35 00 13 00 damaged
    let p = Parameters {
        q: 4,
        m: 3,
        v: 2,
        t0: 1,
        t1: 2,
        t2: 3,
        t3: 0,
        s: 0,
    };
    let a = [0x00u8, 0x00, 0x01, 0x00];
    let b = [0x1eu8, 0x7f, 0xff, 0x07];
    let x = [0x26u8, 0x00, 0x35, 0x00, 0x13, 0x01];
    check::expect(!holds(p, &a, &b, &x));
    // q = 8 and q = 12
    let p = Parameters {
        q: 8,
        m: 2,
        v: 1,
        t0: 1,
        t1: 2,
        t2: 0,
        t3: 0,
        s: 0,
    };
    let a = [0x06u8; 61];
    let b = [0x62u8; 61];
    let x = [0x01u8; 64];
    check::expect(!holds(p, &a, &b, &x));
    let p = Parameters {
        q: 12,
        m: 2,
        v: 1,
        t0: 1,
        t1: 2,
        t2: 0,
        t3: 0,
        s: 0,
    };
    let a = [0x06u8; 1020];
    let b = [0x02u8; 1020];
    let mut x = [0x00u8; 1024];
    let e = [0xffu8; 1024];
    x[0] = 0x01;
    check::expect(!holds(p, &a, &b, &x));
    erased_rooms(p, &e, 1020);
    // sheet A with s 3: a member, and its erased page, whose blocks are written and make another page
    let p = Parameters {
        q: 4,
        m: 2,
        v: 1,
        t0: 1,
        t1: 2,
        t2: 0,
        t3: 0,
        s: 3,
    };
    let a = [0x02u8, 0x01];
    let b = [0x0eu8, 0xff];
    let x = [0xe8u8, 0x0c, 0x13, 0x00];
    let z = [0xffu8, 0x0f, 0xff, 0x0f];
    check::expect(holds(p, &a, &b, &x));
    check::expect(!holds(p, &a, &b, &z));
    // q = 8 with 24 coefficients stored, and no spare bit
    let p = Parameters {
        q: 8,
        m: 2,
        v: 1,
        t0: 1,
        t1: 2,
        t2: 0,
        t3: 0,
        s: 231,
    };
    let a = [0x06u8; 3];
    let b = [0x62u8; 3];
    let x = [0x01u8; 6];
    check::expect(!holds(p, &a, &b, &x));
}
