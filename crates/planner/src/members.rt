// A leader's members by a leader list.
ghost use Rattle.std.specs.Prelude.{◌≡◌, ◌≤◌, length};
ghost use Rattle.packing.specs.Lists.{written};
ghost use Rattle.packing.specs.Plant.{GATEWAYS, at};
ghost use Rattle.packing.specs.Grouping.{members_of};
ghost use Rattle.refusal.specs.Refusals.{code};
ghost use Rattle.planner.specs.Members.{listed_leaders, members_conditions, members_refusal, members_part, members_list};

use lists::PLACES;
use lists::counts::member_count;
use lists::listed::write_them;
use lists::tests::is_member;
use refusal::Refusal;

// The entries of a leader list that are looked at.
#[tactic(auto, using(std::proofs::lemmas::List::take_min), unfolding(crate::specs::Members::listed_leaders))]
fn looked_at(leaders: &[u16]) -> &[u16]
    ensures { result.now ≡ listed_leaders leaders.now }
{
    &leaders[..PLACES.min(leaders.len())]
}

// The first refusal by a list whose entries all count.
#[tactic(auto, using(crate::proofs::MembersLaws::counted), unfolding(crate::specs::Members::members_conditions))]
fn of_listed(list: &[u16], u: u16, room: usize) -> Result<(), Refusal>
    requires { length list.now ≤ GATEWAYS }
    ensures { code result ≡ members_conditions list.now u room }
{
    if list.get(u as usize) != Some(&u) {
        return Err(Refusal::NotALeader);
    }
    let count = member_count(list.len() as u16, list, u) as usize;
    if count == 0 {
        return Err(Refusal::NotALeader);
    }
    if room < count {
        return Err(Refusal::ListTooShort);
    }
    Ok(())
}

// Writes the members to the front of out and returns their count.
fn write_listed(list: &[u16], u: u16, out: &mut [u16]) -> usize
    requires { (length list.now ≤ GATEWAYS) × (length (members_of (length list.now) (at list.now) u) ≤ length out.old) }
    ensures count { result ≡ length (members_of (length list.now) (at list.now) u) }
    ensures out { out.new ≡ written result (members_of (length list.now) (at list.now) u) out.old }
{
    let n = list.len() as u16;
    write_them(n, |w| is_member(list, u, w), out) as usize
}

/// Refusal::NotALeader, 11, or Refusal::ListTooShort, 10, where members refuses in a list with room for so many numbers.
#[tactic(auto, unfolding(crate::specs::Members::members_refusal))]
pub fn members_refusal(leaders: &[u16], leader: u16, room: usize) -> Result<(), Refusal>
    ensures { code result ≡ members_refusal leaders.now leader room }
{
    of_listed(looked_at(leaders), leader, room)
}

// Writes a leader's members, ascending, to the front of out and returns their count, or 0 on refusal.
// No Result: 01 says that the part which members hands back is empty on refusal, and that a second call tells why.
// This call says what the whole of out holds afterwards. members hands a part of out back, and no promise on the rest can stand beside that.
pub fn write_members(leaders: &[u16], leader: u16, out: &mut [u16]) -> usize
    ensures count { result ≡ length (members_part leaders.now leader (length out.old)) }
    ensures out { out.new ≡ members_list leaders.now leader out.old }
{
    match members_refusal(leaders, leader, out.len()) {
        Ok(()) => write_listed(looked_at(leaders), leader, out),
        Err(_) => 0,
    }
}

// A leader's members, ascending, as the front part of out; an empty part on refusal, and members_refusal tells which.
#[tactic(auto, using(crate::proofs::MembersLaws::part_is, crate::proofs::MembersLaws::part_long))]
pub fn members<'a>(leaders: &[u16], leader: u16, out: &'a mut [u16]) -> &'a mut [u16]
    ensures { result.now ≡ members_part leaders.now leader (length out.old) }
{
    let count = write_members(leaders, leader, out);
    &mut out[..count]
}
