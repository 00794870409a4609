//! Laws of replays as text: the contracts of functions that do nothing.

ghost use Rattle.std.specs.Prelude.{◌≡◌, ℕ, List};
ghost use Rattle.gw_base.specs.Lang.{◌▹◌};
ghost use Rattle.gw_engine.specs.declared.datagram.Datagram.{Datagram as DatagramOf};
ghost use Rattle.gw_front.specs.declared.replay_fault.ReplayFault.{ReplayFault as FaultOf};
ghost use Rattle.gw_front.specs.Records.{AreBursts, AreWholeBursts};
ghost use Rattle.gw_front.specs.RecordFaults.{IsFirstFault};

/// A text is one list of bursts at most.
pub fn bursts_are_one()
    ensures { (bursts others : List (List DatagramOf)) (text : List ℕ) → AreBursts bursts text → AreBursts others text
        → bursts ≡ others }
{}

/// A text has one first fault at most, and none where it is bursts.
pub fn first_faults_are_one()
    ensures one { (fault other : FaultOf) (bursts others : List (List DatagramOf)) (text : List ℕ)
        → (AreWholeBursts bursts ▹ IsFirstFault fault) text → (AreWholeBursts others ▹ IsFirstFault other) text
        → fault ≡ other }
    ensures none { (fault : FaultOf) (bursts others : List (List DatagramOf)) (text : List ℕ) → AreBursts bursts text
        → ¬ (AreWholeBursts others ▹ IsFirstFault fault) text }
{}
