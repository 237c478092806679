//! Which posts may be partners, by what they are (MPI 4.1, chapters 3.2.4 and 3.5).

ghost use Rattle.std.specs.Prelude.{◌≡◌, ◌≤◌};
ghost use Rattle.mp_match.specs.Pairs.{accepts as accepts_of, admits, fits as fits_of, may_pair as may_pair_of};
ghost use Rattle.mp_match.specs.Pairs.{partner_for as partner_for_of};
ghost use Rattle.mp_match.specs.Waiting.{compared_for as compared_for_of, first_waiting, is_open_at, key_with as key_of};
ghost use Rattle.mp_match.specs.Waiting.{one_if, receive_key, same_key as same_key_of};

use mp_match::{Line, Post, Selection, Sent};

fn admits_source(wanted: Option<u8>, source: u8) -> bool
    ensures { result ≡ admits wanted source }
{
    match wanted {
        Some(wanted) => source == wanted,
        None => true,
    }
}

fn admits_tag(wanted: Option<u16>, tag: u16) -> bool
    ensures { result ≡ admits wanted tag }
{
    match wanted {
        Some(wanted) => tag == wanted,
        None => true,
    }
}

// Whether the message is one that is selected.
fn accepts(a: &Selection, s: &Sent) -> bool
    ensures { result ≡ accepts_of a.now s.now }
{
    let envelope = s.envelope;
    s.dest == a.rank
        && envelope.comm == a.comm
        && admits_source(a.source, envelope.source)
        && admits_tag(a.tag, envelope.tag)
}

// Whether the new post may have the earlier one as its partner.
fn may_pair(new: &Post, old: &Post) -> bool
    ensures { result ≡ may_pair_of new.now old.now }
{
    match (new, old) {
        (Post::Send(s), Post::Receive(a)) => accepts(a, s),
        (Post::Receive(a), Post::Send(s)) => accepts(a, s),
        (Post::Claim(a), Post::Send(s)) => accepts(a, s),
        _ => false,
    }
}

fn fits(new: &Post, line: &Line) -> bool
    ensures { result ≡ fits_of new.now line.now }
{
    line.partner.is_none() && may_pair(new, &line.post)
}

fn place_for(lines: &[Line], new: &Post) -> Option<usize>
    ensures { result ≡ partner_for_of lines.now new.now }
{
    let mut rest = lines;
    let mut place = 0;
    while let Some((line, after)) = rest.split_first() {
        if fits(new, line) {
            return Some(place);
        }
        place += 1;
        rest = after;
    }
    None
}

/// The least place of a post without a partner that the new one may have.
pub fn partner_for(lines: &[Line], new: &Post) -> Option<u64>
    ensures { result ≡ partner_for_of lines.now new.now }
{
    match place_for(lines, new) {
        None => None,
        Some(place) => Some(place as u64),
    }
}

// Whether both select the same, wildcards and all.
#[tactic(auto, using(crate::proofs::Waiting::same_option_is))]
fn same_key(a: &Selection, b: &Selection) -> bool
    ensures { result ≡ same_key_of a.now b.now }
{
    a.rank == b.rank && a.comm == b.comm && a.source == b.source && a.tag == b.tag
}

// Whether it is a receive without a partner that selects just this.
fn waits_under(key: &Selection, line: &Line) -> bool
    ensures { result ≡ is_open_at receive_key key.now line.now }
{
    match &line.post {
        Post::Receive(a) => line.partner.is_none() && same_key(key, a),
        _ => false,
    }
}

// The place of the first of them.
fn first_waiting(lines: &[Line], key: &Selection) -> Option<usize>
    ensures { result ≡ first_waiting lines.now key.now }
{
    let mut rest = lines;
    let mut place = 0;
    while let Some((line, after)) = rest.split_first() {
        if waits_under(key, line) {
            return Some(place);
        }
        place += 1;
        rest = after;
    }
    None
}

// 1 where some receive waits that selects just this, else 0.
fn one_waiting(lines: &[Line], s: &Sent, source: Option<u8>, tag: Option<u16>) -> u64
    ensures count { result ≡ one_if (first_waiting lines.now (key_of s.now source tag)) }
    ensures most { result ≤ 1 }
{
    let (rank, comm) = (s.dest, s.envelope.comm);
    match first_waiting(
        lines,
        &Selection {
            rank,
            comm,
            source,
            tag,
        },
    ) {
        None => 0,
        Some(_) => 1,
    }
}

/// How many waiting receives a send compares, which is one for each way to select it.
pub fn compared_for(lines: &[Line], s: &Sent) -> u64
    ensures { result ≡ compared_for_of lines.now s.now }
{
    let (source, tag) = (Some(s.envelope.source), Some(s.envelope.tag));
    one_waiting(lines, s, source, tag)
        + one_waiting(lines, s, source, None)
        + one_waiting(lines, s, None, tag)
        + one_waiting(lines, s, None, None)
}
