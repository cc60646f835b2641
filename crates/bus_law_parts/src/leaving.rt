//! What is left when a part is over. Laws alone, each the contract of an empty function.

ghost use Rattle.std.specs.Prelude.{◌≡◌, ◌≢◌, ℕ, suc, ◌+◌, ◌≤◌, false, List, [], ◌∷◌, ◌++◌, length, count_by};
ghost use Rattle.bus_base.specs.declared.samples.Channel.{Channel};
ghost use Rattle.bus_base.specs.declared.samples.Drive.{Drive};
ghost use Rattle.bus_base.specs.declared.samples.Part.TheVariants.{Command};
ghost use Rattle.bus_formats.specs.declared.fault.Fault.{Fault};
ghost use Rattle.bus_formats.specs.declared.fault.Hit.{Hit};
ghost use Rattle.bus_model.specs.Transmissions.{drives_on, station_drive, is_command, transmissions};
ghost use Rattle.bus_law_line.specs.Senders.{IsSpent, Sender, SendAlone};
ghost use Rattle.bus_law_parts.specs.Parts.{AreWithoutCommand, CommandsAlone, IsFresh, SentPart, part_ticks};

/// From the end of a part on no transmission has an extra left to show on its channel. Four ticks later, when a station whose part was cut has
/// driven on as long as it couldn't know of that, the next drive of each station begins a transmission.
pub fn a_sent_part_leaves_nothing()
    ensures others { (faults : List Fault) (s : Sender) (hits : List Hit) (before sent : List (List Drive)) →
        SentPart faults s hits before sent → (other : ℕ) → other ≢ s.station → IsSpent faults s.channel (sent ++ before) other }
    ensures spent { (faults : List Fault) (s : Sender) (hits : List Hit) (before sent : List (List Drive)) (now : List Drive) →
        SentPart faults s hits before (now ∷ sent) → part_ticks hits s.words ≤ suc (length sent) →
        (station : ℕ) → IsSpent faults s.channel ((now ∷ sent) ++ before) station }
    ensures fresh { (faults : List Fault) (s : Sender) (hits : List Hit) (before sent : List (List Drive)) (now : List Drive) →
        SentPart faults s hits before (now ∷ sent) → suc (length sent) ≡ part_ticks hits s.words + 4 →
        (station : ℕ) → IsFresh faults s.channel ((now ∷ sent) ++ before) station }
{}

/// The next drive of a station that didn't drive the channel in the newest tick begins a transmission there, and so does its first drive at all.
pub fn a_silent_station_is_fresh()
    ensures silent { (faults : List Fault) (c : Channel) (before : List (List Drive)) (now : List Drive) (station : ℕ) →
        drives_on c (station_drive station now) ≡ false → IsFresh faults c (now ∷ before) station }
    ensures first { (faults : List Fault) (c : Channel) (station : ℕ) → IsFresh faults c [] station }
{}

/// The commands that were begun, by which the plan's faults name the attempts, are one more with the first tick of a part that is a command, and
/// no more in its later ticks, in those of an answer, and while nobody drives a command. Of the other stations only the commands count: they may
/// send an answer meanwhile.
pub fn commands_are_counted()
    ensures command { (faults : List Fault) (s : Sender) (hits : List Hit) (before sent : List (List Drive)) (now : List Drive) →
        SentPart faults s hits before (now ∷ sent) → s.part ≡ Command → CommandsAlone s (now ∷ sent) →
        count_by is_command (transmissions faults ((now ∷ sent) ++ before)) ≡ suc (count_by is_command (transmissions faults before)) }
    ensures answer { (faults : List Fault) (s : Sender) (before sent : List (List Drive)) →
        SendAlone s sent → s.part ≢ Command → CommandsAlone s sent →
        count_by is_command (transmissions faults (sent ++ before)) ≡ count_by is_command (transmissions faults before) }
    ensures others { (faults : List Fault) (before ticks : List (List Drive)) → AreWithoutCommand ticks →
        count_by is_command (transmissions faults (ticks ++ before)) ≡ count_by is_command (transmissions faults before) }
{}
