// The plan of a plant file, as lists of numbers (01, "The plant file and the listing"), also while the plant is being placed (02, change 1), and how many gateways it moves (02, change 4). Why a gateway is alone in it is module why.
#![tactic(auto)]

mod ask;
mod loaded;
mod placings;
mod reading;
mod wanted;
pub mod why;
mod work;

ghost use Rattle.std.specs.Prelude.{◌≡◌, ◌||◌, ltb, length, IfOk};
ghost use Rattle.packing.specs.Refusals.{refuse};
ghost use Rattle.refusal.specs.Refusals.{code};
ghost use Rattle.plant_file.specs.Indexed.{Unlinked};
ghost use Rattle.plan.specs.Plan.{plan_refusal, plan_leaders, plan_choke};
ghost use Rattle.plan.specs.After.{after_refusal, plan_after_refusal, plan_moves_by, plan_moves_after, plan_leaders_by, plan_choke_by, plan_leaders_after, plan_choke_after};

use crate::loaded::LoadedFile;
use crate::wanted::Wanted;
use planner::Way;
use refusal::Refusal;

// 24 for more placings than there are gateways, then 10: short says that a lent list is too short.
fn check_call(n: u16, placings: u32, short: bool) -> Result<(), Refusal>
    ensures { code result ≡ refuse (ltb n placings) 24 (refuse short 10 0) }
{
    if (n as u32) < placings {
        return Err(Refusal::AllPlaced);
    }
    if short {
        return Err(Refusal::ListTooShort);
    }
    Ok(())
}

// Whether one of the lists lent has no place for each of n gateways.
fn is_short(n: u16, leaders: &[u16], choke: &[u8]) -> bool
    ensures { result ≡ (ltb (length leaders.now) n || ltb (length choke.now) n) }
{
    leaders.len() < n as usize || choke.len() < n as usize
}

/// The file's own refusal, then Refusal::AllPlaced, 24, for more placings than there are gateways, then Refusal::ListTooShort, 10: short says that a lent list is too short.
pub fn check_after(file: &[u8], placings: u32, short: bool) -> Result<(), Refusal>
    ensures { code result ≡ after_refusal file.now placings short }
{
    plant_file::check(file)?;
    check_call(plant_file::gateways(file), placings, short)
}

// So many links have a place for each end in 1,024 places, which are quicker to clear than places for any plant's.
const FEW_LINKS: u16 = 512;

// plan_lists_by, with lists for the file's links and the index of them.
// The file is gone through once, and leaves its lists and the index of its links; nothing of the record that its calls make is checked again.
// The file's two lists and the plan's two stand apart: they are lent on to different functions.
fn plan_with<'a>(
    file: &'a [u8],
    wanted: Wanted,
    links: &'a mut [u16],
    next: &'a mut [u16],
    leaders: &mut [u16],
    choke: &mut [u8],
) -> Result<u32, Refusal>
    requires { Unlinked file.now links.old next.old }
    ensures answer { code result ≡ plan_after_refusal file.now wanted.placings (length leaders.old) (length choke.old) }
    ensures moved { IfOk result (λ moved. moved ≡ plan_moves_by wanted.way file.now wanted.placings (length leaders.old) (length choke.old)) }
    ensures leaders { leaders.new ≡ plan_leaders_by wanted.way file.now wanted.placings leaders.old choke.old }
    ensures choke { choke.new ≡ plan_choke_by wanted.way file.now wanted.placings leaders.old choke.old }
{
    let mut order = [0u16; lists::PLACES];
    let mut limits = [0u8; lists::PLACES];
    plant_file::load_indexed(file, links, next, &mut order, &mut limits)?;
    let n = plant_file::gateways(file);
    check_call(n, wanted.placings, is_short(n, leaders, choke))?;
    let loaded = LoadedFile::new(file, links, next, &order, &limits);
    Ok(reading::read_lists(&loaded, wanted, leaders, choke))
}

// The leader list and the choke bytes after so many placings in one way. Answers how many gateways these move. Nothing is written on refusal.
pub fn plan_lists_by(
    file: &[u8],
    way: Way,
    placings: u32,
    leaders: &mut [u16],
    choke: &mut [u8],
) -> Result<u32, Refusal>
    ensures answer { code result ≡ plan_after_refusal file.now placings (length leaders.old) (length choke.old) }
    ensures moved { IfOk result (λ moved. moved ≡ plan_moves_by way file.now placings (length leaders.old) (length choke.old)) }
    ensures leaders { leaders.new ≡ plan_leaders_by way file.now placings leaders.old choke.old }
    ensures choke { choke.new ≡ plan_choke_by way file.now placings leaders.old choke.old }
{
    let wanted = Wanted { way, placings };
    if plant_file::link_count(file) <= FEW_LINKS {
        let mut links = [0u16; lists::PLACES];
        let mut next = [lists::NONE; chains::SMALL];
        return plan_with(file, wanted, &mut links, &mut next, leaders, choke);
    }
    let mut links = [0u16; lists::ENDS];
    let mut next = [lists::NONE; chains::SLOTS];
    plan_with(file, wanted, &mut links, &mut next, leaders, choke)
}

// .. by 01's search.
pub fn plan_lists_after(
    file: &[u8],
    placings: u32,
    leaders: &mut [u16],
    choke: &mut [u8],
) -> Result<u32, Refusal>
    ensures answer { code result ≡ plan_after_refusal file.now placings (length leaders.old) (length choke.old) }
    ensures moved { IfOk result (λ moved. moved ≡ plan_moves_after file.now placings (length leaders.old) (length choke.old)) }
    ensures leaders { leaders.new ≡ plan_leaders_after file.now placings leaders.old choke.old }
    ensures choke { choke.new ≡ plan_choke_after file.now placings leaders.old choke.old }
{
    plan_lists_by(file, Way::Queued, placings, leaders, choke)
}

// The leader list and the choke bytes of a file's plan: after all placings. Nothing is written on refusal.
pub fn plan_lists(file: &[u8], leaders: &mut [u16], choke: &mut [u8]) -> Result<(), Refusal>
    ensures answer { code result ≡ plan_refusal file.now (length leaders.old) (length choke.old) }
    ensures leaders { leaders.new ≡ plan_leaders file.now leaders.old choke.old }
    ensures choke { choke.new ≡ plan_choke file.now leaders.old choke.old }
{
    plan_lists_after(file, plant_file::gateways(file) as u32, leaders, choke)?;
    Ok(())
}
