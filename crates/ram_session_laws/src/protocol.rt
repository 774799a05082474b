//! The law of a client that keeps to the protocol.
ghost use Rattle.std.specs.Prelude.{◌≡◌, ℕ, ◌^◌, ◌<◌, List, [], length};
ghost use Rattle.ram_text.specs.declared.script.Line.{Line};
ghost use Rattle.ram_machine.specs.declared.status.Status.{Status};
ghost use Rattle.ram_script.specs.Completes.{NoneRose};
ghost use Rattle.ram_script.specs.Endings.{Aftermath};
ghost use Rattle.ram_script.specs.Progress.{Beginning};
ghost use Rattle.ram_script.specs.RunCounts.{Counts};
ghost use Rattle.ram_session.specs.Talk.{Message, Greeted};
ghost use Rattle.ram_session.specs.Opening.{IsSessionOpened, export_after};
ghost use Rattle.ram_session.specs.Session.{SessionStands, SessionCounts, EndsRefused};
ghost use Rattle.ram_session_laws.specs.Protocol.{KeepsProtocol, messages_bytes, IsServedToEnd};

/// A client that keeps to the protocol is served to its end, unless something fails. What it sends are the bytes of messages that may
/// come one after another, whatever the session serves it; source, sink and image do not fail; and no fault that the words ask for is
/// refused. Then the session ends with Done, and each of the messages was answered.
///
/// # Clauses
///
/// - `served`: so it is.
/// - `faultless`: so it is where the words ask for no fault, since then none is refused.
pub fn a_client_that_keeps_to_the_protocol_is_served()
    ensures served { (first : Beginning) (faults : List Line) (after : Aftermath) (status : Status)
        (counts later : Counts)
        (messages : List Message) → SessionStands first faults after status → SessionCounts counts later status
        → NoneRose counts later → ¬ EndsRefused first faults after
        → first.script ≡ messages_bytes messages → length first.script < 2 ^ 64
        → ((opened : IsSessionOpened first faults) → KeepsProtocol (export_after opened.steps) Greeted messages)
        → IsServedToEnd first faults messages after status }
    ensures faultless { (first : Beginning) (after : Aftermath) (status : Status) (counts later : Counts)
        (messages : List Message) → SessionStands first [] after status → SessionCounts counts later status
        → NoneRose counts later → first.script ≡ messages_bytes messages → length first.script < 2 ^ 64
        → ((opened : IsSessionOpened first []) → KeepsProtocol (export_after opened.steps) Greeted messages)
        → IsServedToEnd first [] messages after status }
{}
