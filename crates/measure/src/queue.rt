//! What the calls of a queue cost: `measure queue COUNT` fills a queue with `COUNT` members and makes rounds of calls
//! on it. Then it fills another, and takes half of the members out of it.
use crate::figures::Figures;
use crate::random::Random;
use crate::words::number_at;
use block_queue::BlockQueue;
use eden_base::NoMemory;
use std::alloc::Global;

/// How often the calls of a round are made.
const ROUNDS: u32 = 20_000;

/// A member of 24 bytes, as large as a task in a daemon's hand.
#[derive(Clone, Copy)]
struct Member {
    unique: u64,
    node: u64,
    k: u64,
}

/// Returns member `i`.
fn member_of(i: u32) -> Member {
    let unique = u64::from(i);
    Member {
        unique,
        node: unique.wrapping_add(2),
        k: 1,
    }
}

/// Appends `member`. It is inlined, so that a round makes its calls itself.
#[inline(always)]
fn append(queue: &mut BlockQueue<Member>, member: Member) -> Result<(), NoMemory> {
    queue.reserve(1)?;
    queue.push_reserved(member);
    Ok(())
}

/// Makes a queue of `count` members.
fn fill(alloc: Global, count: u32) -> Result<BlockQueue<Member>, NoMemory> {
    let mut queue = BlockQueue::new(alloc);
    for i in 0..count {
        append(&mut queue, member_of(i))?;
    }
    Ok(queue)
}

/// Returns the index of a random member.
fn pick(queue: &BlockQueue<Member>, random: &mut Random) -> usize {
    random.below(queue.len() as u64) as usize
}

/// Removes the member at `index`, appends it again, and returns its unique. It is inlined too.
#[inline(always)]
fn turn(queue: &mut BlockQueue<Member>, index: usize) -> Result<u64, NoMemory> {
    let Some(member) = queue.remove(index) else {
        return Ok(0);
    };
    append(queue, member)?;
    Ok(member.unique)
}

/// Turns the first member each time, and returns the sum of the uniques.
#[inline(never)]
fn turn_first(queue: &mut BlockQueue<Member>) -> Result<u64, NoMemory> {
    let mut sum = 0u64;
    for _ in 0..ROUNDS {
        sum = sum.wrapping_add(turn(queue, 0)?);
    }
    Ok(sum)
}

/// Turns members in a random order, and returns the sum of the uniques.
#[inline(never)]
fn turn_any(queue: &mut BlockQueue<Member>) -> Result<u64, NoMemory> {
    let (mut random, mut sum) = (Random::new(), 0u64);
    for _ in 0..ROUNDS {
        let index = pick(queue, &mut random);
        sum = sum.wrapping_add(turn(queue, index)?);
    }
    Ok(sum)
}

/// Gets members in a random order, and returns the sum of their uniques.
#[inline(never)]
fn get_any(queue: &BlockQueue<Member>) -> u64 {
    let (mut random, mut sum) = (Random::new(), 0u64);
    for _ in 0..ROUNDS {
        if let Some(member) = queue.get(pick(queue, &mut random)) {
            sum = sum.wrapping_add(member.unique);
        }
    }
    sum
}

/// Removes half of the members in a random order, and returns the sum of their uniques.
#[inline(never)]
fn take_any(queue: &mut BlockQueue<Member>) -> u64 {
    let (mut random, mut sum) = (Random::new(), 0u64);
    for _ in 0..queue.len() / 2 {
        let index = pick(queue, &mut random);
        if let Some(member) = queue.remove(index) {
            sum = sum.wrapping_add(member.unique);
        }
    }
    sum
}

/// Makes a queue of `count` members and the calls of the rounds on it. Returns the sum of each round.
fn turn_all(alloc: Global, count: u32) -> Result<[u64; 3], NoMemory> {
    let mut queue = fill(alloc, count)?;
    let first = turn_first(&mut queue)?;
    let any = turn_any(&mut queue)?;
    let got = get_any(&queue);
    drop(queue);
    Ok([first, any, got])
}

/// Makes a queue of `count` members, and takes half of them out. Returns the sum of their uniques.
fn take_half(alloc: Global, count: u32) -> Result<u64, NoMemory> {
    let mut queue = fill(alloc, count)?;
    let taken = take_any(&mut queue);
    drop(queue);
    Ok(taken)
}

/// Measures a queue, as `words` say.
pub(crate) fn measure(alloc: Global, words: &[&str]) -> Result<Option<Figures>, NoMemory> {
    let ([_], Some(count)) = (words, number_at(words, 0)) else {
        return Ok(None);
    };
    let [first, any, got] = turn_all(alloc, count)?;
    let taken = take_half(alloc, count)?;
    Ok(Some(Figures::of(&["first", "any", "got", "taken"], &[first, any, got, taken])))
}
