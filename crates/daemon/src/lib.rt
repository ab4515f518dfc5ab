// The answers to C, as bytes; daemon_c has the calls under C's names, with the refusals as numbers. The plan of a plant file as one list of bytes (01, "The plant file and the listing"), also while the plant is being placed (02, change 1), with the number moved (02, change 4); why a gateway is alone (02, change 5); the checker of lists by any hand (02, change 6); and the plan by the short search (02, change 7).
#![tactic(auto)]

mod bytes;

ghost use Rattle.std.specs.Prelude.{◌≡◌, ◌≤◌, false, length};
ghost use Rattle.packing.specs.Lists.{written};
ghost use Rattle.packing.specs.Refusals.{by_number};
ghost use Rattle.refusal.specs.Refusals.{code};
ghost use Rattle.plant_file.specs.PlantFile.{file_n};
ghost use Rattle.plan.specs.After.{after_refusal};
ghost use Rattle.daemon.specs.Why.{alone_refusal, alone_out};
ghost use Rattle.daemon.specs.Check.{groups_check};
ghost use Rattle.daemon.specs.Groups.{bytes_for, groups_refusal, groups_out, bytes_by, groups_after_refusal, groups_by, groups_after_out, recursive_out};

use lists::PLACES;
use planner::Way;
use refusal::Refusal;

// Where the list is long enough. The file is checked by the plan alone.
fn write_plan(file: &[u8], way: Way, placings: u32, out: &mut [u8]) -> Result<(), Refusal>
    requires { bytes_for (file_n file.now) ≤ length out.old }
    ensures answer { code result ≡ after_refusal file.now placings false }
    ensures out { out.new ≡ by_number (after_refusal file.now placings false) (written (bytes_for (file_n file.now)) (bytes_by way file.now placings) out.old) out.old }
{
    let mut leaders = [0u16; PLACES];
    let mut choke = [0u8; PLACES];
    let moved = plan::plan_lists_by(file, way, placings, &mut leaders, &mut choke)?;
    let n = plant_file::gateways(file) as usize;
    bytes::with_plan(n, &leaders, &choke, moved, out);
    Ok(())
}

// The plan after so many placings in one way.
fn groups_by(file: &[u8], way: Way, placings: u32, out: &mut [u8]) -> Result<(), Refusal>
    ensures answer { code result ≡ groups_after_refusal file.now placings (length out.old) }
    ensures out { out.new ≡ groups_by way file.now placings out.old }
{
    if out.len() < 3 * (plant_file::gateways(file) as usize) + 4 {
        return plan::check_after(file, placings, true);
    }
    write_plan(file, way, placings, out)
}

// The plan after so many placings.
pub fn plan_groups_after(file: &[u8], placings: u32, out: &mut [u8]) -> Result<(), Refusal>
    ensures answer { code result ≡ groups_after_refusal file.now placings (length out.old) }
    ensures out { out.new ≡ groups_after_out file.now placings out.old }
{
    groups_by(file, Way::Queued, placings, out)
}

// The daemon's one call: the plan after all placings.
pub fn plan_groups(file: &[u8], out: &mut [u8]) -> Result<(), Refusal>
    ensures answer { code result ≡ groups_refusal file.now (length out.old) }
    ensures out { out.new ≡ groups_out file.now out.old }
{
    plan_groups_after(file, plant_file::gateways(file) as u32, out)
}

// The same by the short search.
pub fn plan_groups_recursive(file: &[u8], out: &mut [u8]) -> Result<(), Refusal>
    ensures answer { code result ≡ groups_refusal file.now (length out.old) }
    ensures out { out.new ≡ recursive_out file.now out.old }
{
    groups_by(file, Way::Recursive, plant_file::gateways(file) as u32, out)
}

// Why a gateway is alone in that plan: two sets of gateways.
pub fn why_alone(file: &[u8], gateway: u32, out: &mut [u8]) -> Result<(), Refusal>
    ensures answer { code result ≡ alone_refusal file.now gateway (length out.old) }
    ensures out { out.new ≡ alone_out file.now gateway out.old }
{
    let mut first = [0u16; PLACES];
    let mut second = [0u16; PLACES];
    let why = plan::why::why_lists(file, gateway, &mut first, &mut second)?;
    if out.len() < 4 * (plant_file::gateways(file) as usize) + 4 {
        return Err(Refusal::ListTooShort);
    }
    let a = why.first as usize;
    let b = why.second as usize;
    bytes::with_sets(&first[..a], &second[..b], out);
    Ok(())
}

// Checks a leader list and a choke list by any hand. Nothing is written.
pub fn check_groups(file: &[u8], leaders: &[u8], choke: &[u8]) -> Result<(), Refusal>
    ensures { code result ≡ groups_check file.now leaders.now choke.now }
{
    let mut entries = [0u16; PLACES];
    let count = bytes::entry_count(leaders.len());
    bytes::with_entries(leaders, count, &mut entries);
    checker::check_lists(file, &entries[..count], choke)
}
