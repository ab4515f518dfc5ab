// The gateways without holder.
ghost use Rattle.packing.specs.Lists.{Lent};
ghost use Rattle.search.specs.ChokePre.{Queued};

use lists::listed::write_them;

// Queues all gateways without holder, ascending. Returns how many are queued.
pub(crate) fn queue_unheld(n: u16, holders: &[u16], queue: &mut [u16]) -> usize
    requires { Lent n holders.now queue.old }
    ensures { Queued n holders.now queue.new result }
{
    write_them(n, |v| n <= holders[v as usize], queue) as usize
}
