//! What a channel shows of what is driven. Laws alone, each the contract of an empty function.

ghost use Rattle.std.specs.Prelude.{◌≡◌, ℕ, ◌*◌, ◌≤◌, List, [], ◌∷◌, ◌++◌, length};
ghost use Rattle.bus_base.specs.declared.samples.Channel.{Channel};
ghost use Rattle.bus_base.specs.declared.samples.Drive.{Drive};
ghost use Rattle.bus_base.specs.declared.samples.Drive.TheVariants.{Silent};
ghost use Rattle.bus_base.specs.declared.samples.Part.{Part};
ghost use Rattle.bus_words.specs.declared.word.Word.{Word};
ghost use Rattle.bus_line.specs.Channels.{on_channel};
ghost use Rattle.bus_line.specs.Past.{quiet_ticks};
ghost use Rattle.bus_formats.specs.Plans.{PlanData};
ghost use Rattle.bus_formats.specs.declared.fault.Fault.{Fault};
ghost use Rattle.bus_formats.specs.declared.fault.Hit.{Hit};
ghost use Rattle.bus_model.specs.Memory.{TimedLoad};
ghost use Rattle.bus_model.specs.Control.{OutsideTake};
ghost use Rattle.bus_model.specs.Sending.{drive_sample};
ghost use Rattle.bus_model.specs.Strikes.{added_by};
ghost use Rattle.bus_model.specs.Wire.{samples_on, drivers};
ghost use Rattle.bus_model.specs.World.{world, trace};
ghost use Rattle.bus_law_line.specs.Shown.{shown_on, struck_of, struck_spelling};
ghost use Rattle.bus_law_line.specs.Senders.{Sender, SentAlone, LeftAlone, IsSpent};

/// While one station sends and no other drives its channel, the channel shows in each tick the one sample that is due, as the faults of the plan
/// strike it: one station drives it, and what it shows over all these ticks is the struck spelling of the words (transmission continuity,
/// MIL-STD-1553B 4.4.1.2). Afterwards no other station has anything left to show there, nor has this one, if no extra was to follow.
pub fn a_sender_shows_its_words()
    ensures now { (faults : List Fault) (s : Sender) (hits : List Hit) (before sent : List (List Drive)) (now : List Drive) →
        SentAlone faults s hits before (now ∷ sent) →
        samples_on faults s.channel ((now ∷ sent) ++ before) ≡ struck_of hits s.words (length sent) ∷ [] }
    ensures alone { (faults : List Fault) (s : Sender) (hits : List Hit) (before sent : List (List Drive)) (now : List Drive) →
        SentAlone faults s hits before (now ∷ sent) → drivers faults s.channel ((now ∷ sent) ++ before) ≡ 1 }
    ensures shown { (faults : List Fault) (s : Sender) (hits : List Hit) (before sent : List (List Drive)) →
        SentAlone faults s hits before sent →
        shown_on faults s.channel (sent ++ before) ≡ struck_spelling hits s.words (length sent) ++ shown_on faults s.channel before }
    ensures spent { (faults : List Fault) (s : Sender) (hits : List Hit) (before sent : List (List Drive)) (now : List Drive) →
        SentAlone faults s hits before (now ∷ sent) → added_by hits ≡ 0 →
        (station : ℕ) → IsSpent faults s.channel ((now ∷ sent) ++ before) station }
{}

/// After the last sample of its words a station drives nothing.
pub fn nothing_is_sent_after_the_words()
    ensures { (c : Channel) (part : Part) (words : List Word) (i : ℕ) → 40 * length words ≤ i → drive_sample c part words i ≡ Silent }
{}

/// A channel that no station drives, and on which no transmission has an extra left to show, is quiet, and stays so.
pub fn a_channel_left_alone_is_quiet()
    ensures now { (faults : List Fault) (c : Channel) (before silent : List (List Drive)) (now : List Drive) →
        LeftAlone faults c before (now ∷ silent) → drivers faults c ((now ∷ silent) ++ before) ≡ 0 }
    ensures shown { (faults : List Fault) (c : Channel) (before silent : List (List Drive)) →
        LeftAlone faults c before silent → shown_on faults c (silent ++ before) ≡ quiet_ticks (length silent) ++ shown_on faults c before }
    ensures spent { (faults : List Fault) (c : Channel) (before silent : List (List Drive)) →
        LeftAlone faults c before silent → (station : ℕ) → IsSpent faults c (silent ++ before) station }
{}

/// What the channels of the world showed is what the wire shows of all that its stations drove.
pub fn the_world_shows_what_is_driven()
    ensures { (k : ℕ) (plan : PlanData) (loads : List TimedLoad) (outside : List OutsideTake) (absent : List ℕ) (t : ℕ) (c : Channel) →
        on_channel c (world k plan loads outside absent t) ≡ shown_on plan.faults c (trace k plan loads outside absent t).driven }
{}
