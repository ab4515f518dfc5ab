// The calls from C: those of the crate daemon, under their names and with their promises; a refusal is its number, and 0 stands for accepted. C lends a slice as a pointer and then a length. A crate is a library or a static library, so that these stand apart from daemon, on which listing rests too.
#![tactic(auto)]

ghost use Rattle.std.specs.Prelude.{◌≡◌, length};
ghost use Rattle.daemon.specs.Why.{alone_refusal, alone_out};
ghost use Rattle.daemon.specs.Check.{groups_check};
ghost use Rattle.daemon.specs.Groups.{groups_refusal, groups_out, groups_after_refusal, groups_after_out, recursive_out};

use refusal::code;

// The plan after so many placings.
#[unsafe(no_mangle)]
pub extern "C" fn plan_groups_after(file: &[u8], placings: u32, out: &mut [u8]) -> u32
    ensures answer { result ≡ groups_after_refusal file.now placings (length out.old) }
    ensures out { out.new ≡ groups_after_out file.now placings out.old }
{
    code(daemon::plan_groups_after(file, placings, out))
}

// The daemon's one call: the plan after all placings.
#[unsafe(no_mangle)]
pub extern "C" fn plan_groups(file: &[u8], out: &mut [u8]) -> u32
    ensures answer { result ≡ groups_refusal file.now (length out.old) }
    ensures out { out.new ≡ groups_out file.now out.old }
{
    code(daemon::plan_groups(file, out))
}

// The same by the short search.
#[unsafe(no_mangle)]
pub extern "C" fn plan_groups_recursive(file: &[u8], out: &mut [u8]) -> u32
    ensures answer { result ≡ groups_refusal file.now (length out.old) }
    ensures out { out.new ≡ recursive_out file.now out.old }
{
    code(daemon::plan_groups_recursive(file, out))
}

// Why a gateway is alone in that plan: two sets of gateways.
#[unsafe(no_mangle)]
pub extern "C" fn why_alone(file: &[u8], gateway: u32, out: &mut [u8]) -> u32
    ensures answer { result ≡ alone_refusal file.now gateway (length out.old) }
    ensures out { out.new ≡ alone_out file.now gateway out.old }
{
    code(daemon::why_alone(file, gateway, out))
}

// Checks a leader list and a choke list by any hand. Nothing is written.
#[unsafe(no_mangle)]
pub extern "C" fn check_groups(file: &[u8], leaders: &[u8], choke: &[u8]) -> u32
    ensures { result ≡ groups_check file.now leaders.now choke.now }
{
    code(daemon::check_groups(file, leaders, choke))
}
