// What the programs that replay a list of answers share. A list comes on standard input in parts; a part is the number of its cases and the cases.
#![tactic(auto)]

ghost use Rattle.std.specs.Prelude.{◌≡◌, ◌+◌, ◌*◌, ◌≤◌, ◌<◌, length, take, slice_index, IfSome, IfOk, OnErr};
ghost use Rattle.std.specs.Io.KnownBytes.{Consumes, IsAtEnd};
ghost use Rattle.lists.specs.Input.{ConsumesSome};
ghost use Rattle.lists.specs.Numbers.{number_of, number_at, numbers_of, is_set};

use std::io;
use std::io::Read;

// Reads until the room is full or the input ends, and returns how many bytes it put at the start of the room.
pub fn read_full<R: Read>(input: &mut R, room: &mut [u8]) -> io::Result<usize>
    ensures bound { IfOk result (λ n. n ≤ length room.new) }
    ensures bytes { IfOk result (λ n. Consumes (R.remaining input.old) (R.remaining input.new) (take n room.new)) }
    ensures end { IfOk result (λ n. n < length room.new → IsAtEnd (R.remaining input.new)) }
    ensures err { OnErr result (ConsumesSome (R.remaining input.old) (R.remaining input.new)) }
{
    let mut done = 0;
    // Each read says where the next begins: no list is gone through.
    while done < room.len() {
        let n = input.read(&mut room[done..])?;
        if n == 0 {
            break;
        }
        done += n;
    }
    Ok(done)
}

// A part of cases of `size` bytes: tells in how many of them `agrees` says no.
pub fn part<R: Read, F: Fn(&[u8]) -> bool>(
    rt: &impl Print,
    input: &mut R,
    name: &[u8],
    size: usize,
    agrees: F,
) -> io::Result<()>
    requires fits { size ≤ 4096 }
    requires callable { F.IsAlwaysCallable agrees }
{
    // The programs allocate nothing.
    let mut room = [0u8; 4096];
    let n = how_many(input)?;
    let wrong = differing(input, n, &mut room[..size], agrees)?;
    tell(rt, name, n, wrong)
}

// In how many of the next n cases, each as long as the room for it, `agrees` says no. One that is cut off differs.
pub fn differing<R: Read, F: Fn(&[u8]) -> bool>(
    input: &mut R,
    n: u32,
    room: &mut [u8],
    agrees: F,
) -> io::Result<u32>
    requires { F.IsAlwaysCallable agrees }
    ensures { IfOk result (λ wrong. wrong ≤ n) }
{
    let mut wrong = 0;
    // so many cases are done: no more than those can differ
    for done in 0..n {
        if read_full(input, room)? != room.len() || !agrees(room) {
            wrong = more(wrong);
        }
    }
    Ok(wrong)
}

// The number of a part's cases, with which it begins: two bytes, the lower first.
pub fn how_many<R: Read>(input: &mut R) -> io::Result<u32>
    ensures limit { IfOk result (λ n. n ≤ 65535) }
    ensures bytes { IfOk result (λ n. IfSome (R.remaining input.old)
        (λ xs. 2 ≤ length xs → n ≡ slice_index xs 0 + 256 * slice_index xs 1)) }
    ensures err { OnErr result (ConsumesSome (R.remaining input.old) (R.remaining input.new)) }
{
    let mut head = [0u8; 2];
    read_full(input, &mut head)?;
    let [low, high] = head;
    Ok(u32::from(low) + 256 * u32::from(high))
}

// One more case that differs, as far as a part can have them.
pub fn more(n: u32) -> u32
    ensures { (n < 65535 → result ≡ n + 1) × (65535 ≤ n → result ≡ n) }
{
    if n < 65535 { n + 1 } else { n }
}

// The line of a part: its name, how many cases it had, and in how many of them the answer is another one.
pub fn tell(rt: &impl Print, name: &[u8], cases: u32, wrong: u32) -> io::Result<()> {
    rt.write_all(name)?;
    println!(rt; ": {cases} cases, {wrong} differ")
}

// Whether a bit is set in a byte of marks: 1, 2, 4 and so on.
pub fn marked(marks: u8, bit: u8) -> bool
    ensures { result ≡ is_set bit marks }
{
    bit != 0 && marks / bit % 2 == 1
}

// A number of a list: three bytes, the lowest first, and 8388608 more than the number.
fn number(a: u8, b: u8, c: u8) -> i32
    ensures { result ≡ number_of a b c }
{
    i32::from(a) + 256 * i32::from(b) + 65536 * i32::from(c) - 8388608
}

// Number k of a run of them, or 0 where it has fewer.
fn number_at(c: &[u8], k: usize) -> i32
    ensures { result ≡ number_at c.now k }
{
    if k < c.len() / 3 {
        number(c[3 * k], c[3 * k + 1], c[3 * k + 2])
    } else {
        0
    }
}

// As many numbers as `out` has places.
pub fn numbers(c: &[u8], out: &mut [i32])
    ensures { out.new ≡ numbers_of (length out.old) c.now }
{
    for (k, number) in out.iter_mut().enumerate() {
        *number = number_at(c, k);
    }
}
