#![tactic(auto)]

// Taking calls on an image back, shown of the definitions. specs/Layout.antt says what rewrites with as many words keep, specs/Undoing.antt what takes
// calls back and that it does, specs/Replaying.antt what replay then promises. No function stands here: `replay` makes the calls.
