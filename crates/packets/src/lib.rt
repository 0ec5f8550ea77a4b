// Worked packets: what the rules of the machine and of virtual fonts come to on short packets.
#![tactic(auto)]

ghost use Rattle.packets.specs.Worked.{WorkedPackets};

// The packets of docs/PACKETS.md have the outcomes stated there by the definitions that the contracts cite.
#[tactic(auto, unfolding(numbers::specs::FixWords::scaled, numbers::specs::FixWords::halvings, commands::specs::Commands::command_at, shelf::specs::Meaning::called, machine::specs::Runs::turned, machine::specs::Runs::run, machine::specs::Steps::exec, expansion::specs::Expanding::expanded))]
pub fn worked_packets()
    ensures { WorkedPackets }
{}
