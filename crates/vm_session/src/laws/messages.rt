//! What holds of every list of messages and of every machine: the function here is a theorem, and does nothing.
ghost use Rattle.std.specs.Prelude.{◌≡◌, ℕ, List, Result};
ghost use Rattle.vm_memory_base.specs.Pages.{PageSet};
ghost use Rattle.vm_memory_base.specs.Table.{Table, TableEvent, events_of};
ghost use Rattle.vm_memory_guest.specs.Host.{Host};
ghost use Rattle.vm_memory.specs.History.{table_events};
ghost use Rattle.vm_memory.specs.Machine.{Run};
ghost use Rattle.vm_memory.specs.State.{State};
ghost use Rattle.vhost_iotlb.specs.Changes.{Applies, Handles};
ghost use Rattle.vhost_iotlb.specs.declared.table.Refusal.{Refusal};
ghost use Rattle.vhost_message.specs.declared.iotlb.IotlbMessage.{IotlbMessage};
ghost use Rattle.vhost_message.specs.declared.regions.MemoryRegion.{MemoryRegion};
ghost use Rattle.vm_session.specs.Commands.{all_done, commands_of};

/// What a message makes of a table of a host are commands of a machine, each of which is done. So what holds of every
/// run of a machine holds of messages, whatever it does between them; and of a list of messages the table has the
/// events that their commands lead to.
pub fn messages_are_commands()
    ensures run { (number : ℕ) (regions : List MemoryRegion) (m : IotlbMessage) (answer : Result (Unit {0}) Refusal)
        (calls : List TableEvent) (old new : Host PageSet) (s : State) → Applies number regions m answer calls old new
        → Run (record s { host = old }) (commands_of number calls) (all_done calls) (record s { host = new }) }
    ensures events { (number : ℕ) (regions : List MemoryRegion) (ms : List IotlbMessage) (calls : List TableEvent)
        (old new : Host PageSet) (t : Table) → Handles number regions ms calls old new
        → table_events number t (commands_of number calls) (all_done calls) ≡ events_of calls t }
{}
