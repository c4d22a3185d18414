// One round: the terms one after the other, and then what is new in the bodies of equations is handed on to the refs.
#![tactic(auto)]

ghost use Rattle.areas.specs.Rows.{held};
ghost use Rattle.courses.specs.Courses.{Coursed, HandedOn};

use advances::advance;
use arrivals::news_of;
use extents::{is_empty, part_at, set_part};
use sets::TooLarge;

// All terms. Where the log then ends is returned, or that a limit is passed.
pub fn course(
    slots: &[u64],
    lists: &[u64],
    sets: &mut [usize],
    news: &mut [usize],
    work: &mut [u64],
    log: &mut [u64],
    end: usize,
    out: &mut [u64],
) -> Result<usize, TooLarge>
    ensures { Coursed slots.now lists.now end
        sets.old news.old (held work.old) (held log.old) (held out.old)
        sets.new news.new (held work.new) (held log.new) (held out.new) result }
{
    let mut to = end;
    for n in 0..slots.len() {
        to = advance(
            slots[n],
            lists,
            slots.len(),
            n,
            sets,
            news,
            work,
            log,
            to,
            out,
        )?;
    }
    Ok(to)
}

// What is new in the bodies is what is new for the refs in the next round. Whether there is anything is returned.
pub fn hand_on(bodies: &[u64], news: &mut [usize]) -> bool
    ensures { HandedOn bodies.now news.old news.new result }
{
    let mut some = false;
    for e in 0..bodies.len() {
        let part = part_at(news, bodies[e] as usize);
        set_part(news, news_of(e), part);
        if !is_empty(part) {
            some = true;
        }
    }
    some
}
