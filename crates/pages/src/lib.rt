// Worked pages: what reading comes to on short pages.
#![tactic(auto)]

ghost use Rattle.pages.specs.Worked.{WorkedPages};

// The pages of docs/PAGES.md have the outcomes stated there by the definitions that the contracts cite.
#[tactic(auto, unfolding(commands::specs::Commands::command_at, shelf::specs::Meaning::called, shelf::specs::Names::found_in, machine::specs::Runs::turned, machine::specs::Runs::run, machine::specs::Steps::exec, document::specs::Bytes::four, document::specs::Bytes::two, document::specs::Pages::broken_from, document::specs::Pages::page_before, document::specs::Pages::page_place, document::specs::Fonts::defined_at, document::specs::Fonts::entry_at, document::specs::Fonts::first_of, document::specs::Fonts::unlawful, document::specs::Fonts::first_unlawful, document::specs::Fonts::font_from, document::specs::Legal::bare, document::specs::Legal::legal, reading::specs::Reading::page_outcome))]
pub fn worked_pages()
    ensures { WorkedPages }
{}
