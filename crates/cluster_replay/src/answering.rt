ghost use Rattle.std.specs.Prelude.{◌≡◌, All, IfOk};
ghost use Rattle.packet_reader.specs.Form.{IsFormed};
ghost use Rattle.packet_reader.specs.declared.mode.Mode.TheVariants.{Replay};
ghost use Rattle.run_model.specs.Replaying.{replies_from};

use crate::cluster::Cluster;
use out_of_memory::OutOfMemory;
use packet_reader::Event;
use run_model::Reply;
use std::alloc::Global;

/// The replies of a cluster to a script, one for each event.
pub fn replies(
    alloc: Global,
    cluster: &mut Cluster,
    script: &[Event],
) -> Result<Vec<Reply>, OutOfMemory>
    requires { All (IsFormed Replay cluster.old.cluster.opened.size) script.now }
    ensures { IfOk result (λ made. made.items ≡ replies_from cluster.old.cluster script.now) }
{
    let mut replies = Vec::with_capacity(alloc, script.len())?;
    'events: for event in script {
        replies.push(cluster.handle(event)?)?;
    }
    Ok(replies)
}
