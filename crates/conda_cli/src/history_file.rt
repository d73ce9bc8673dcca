ghost use Rattle.std.specs.Prelude.{◌≡◌, ◌≤◌, ◌+◌, IfErr, IfOk, IfSome, false, length};
ghost use Rattle.std.specs.Prelude.{option_map, take};
ghost use Rattle.conda_dev.specs.Hosts.{SameOfAll};
ghost use Rattle.conda_dev.specs.Tree.{cut_node};
ghost use Rattle.std.specs.FinMap as map;
ghost use Rattle.conda_cli.specs.Answers.{IsFaultOf, history_in, history_limit, lane_answer};

use crate::fault::Fault;
use conda_dev::{DeviceErr, Host, Lane};
use conda_path::{Node, Prefix, RelPath};
use std::alloc::Global;

/// The most bytes of a history.
pub const HISTORY_LIMIT: u64 = 67_108_864;

/// The first `max` bytes of the node at a path of a prefix, or None where nothing is there.
fn read_first<H: Host>(
    alloc: Global,
    host: &mut H,
    prefix: &Prefix,
    path: &RelPath,
    max: u64,
) -> Result<Option<Node>, Fault>
    requires { (H.state host.old).lent prefix.now ≡ false }
    ensures bound { IfOk result (λ read. IfSome read (λ node. length node.bytes ≤ max)) }
    ensures node { IfOk result (λ read. IfSome ((H.state host.old).told prefix.now)
        (λ tree. read ≡ option_map (cut_node max) (map.get tree path.now))) }
    ensures faults { IfErr result (IsFaultOf (H.state host.old) (H.state host.new)) }
    ensures trees { SameOfAll (H.state host.old).told (H.state host.new).told }
    ensures lent { SameOfAll (H.state host.old).lent (H.state host.new).lent }
    ensures files { (H.state host.new).files ≡ (H.state host.old).files }
{
    let mut lanes = match host.lanes(alloc, prefix, "", 1) {
        Ok(lanes) => lanes,
        Err(DeviceErr::Failed) => return Err(Fault::HostFault),
        Err(DeviceErr::Memory) => return Err(Fault::Memory),
    };
    let read = lanes[0].read(alloc, path, max);
    host.take_back(prefix, lanes);
    lane_answer(read)
}

/// What a lane's answer is in a run.
fn lane_answer<T: Drop>(answer: Result<T, DeviceErr>) -> Result<T, Fault>
    ensures { result ≡ lane_answer answer }
{
    match answer {
        Ok(value) => Ok(value),
        Err(DeviceErr::Failed) => Err(Fault::EnvFault),
        Err(DeviceErr::Memory) => Err(Fault::Memory),
    }
}

/// The first bytes of the history at a prefix, one more than its limit at the most, or None where it
/// is absent.
pub fn find_history<H: Host>(
    alloc: Global,
    host: &mut H,
    prefix: &Prefix,
) -> Result<Option<Node>, Fault>
    requires { (H.state host.old).lent prefix.now ≡ false }

    ensures bound { IfOk result (λ found.
        IfSome found (λ node. length node.bytes ≤ history_limit + 1)) }
    ensures found { IfOk result (λ found. IfSome ((H.state host.old).told prefix.now)
        (λ tree. option_map (λ node. node.bytes) found
        ≡ option_map (take (history_limit + 1)) (history_in tree))) }
    ensures faults { IfErr result (IsFaultOf (H.state host.old) (H.state host.new)) }

    ensures trees { SameOfAll (H.state host.old).told (H.state host.new).told }
    ensures lent { SameOfAll (H.state host.old).lent (H.state host.new).lent }
    ensures files { (H.state host.new).files ≡ (H.state host.old).files }
{
    let path = match RelPath::read(alloc, "conda-meta/history") {
        Ok(path) => path,
        Err(_) => return Err(Fault::Memory),
    };
    read_first(alloc, host, prefix, &path, HISTORY_LIMIT + 1)
}
