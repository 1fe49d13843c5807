// The rules of opening, load, access and rebuild as definitions, of one call and of whole runs. There is no code here: read specs/,
// from World on, beside docs/RULES.md.
#![tactic(auto)]
