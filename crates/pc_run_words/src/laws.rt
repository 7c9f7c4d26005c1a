ghost use Rattle.std.specs.Prelude.{◌≡◌, ℕ, Bool, true, false, List, [], ◌∷◌, ◌++◌, All, Some, None, codes, option_map};
ghost use Rattle.std.specs.Str.{bytes_eq};
ghost use Rattle.pc_run_words.specs.Words.{Given, given, is_option, value_in};

/// Words of which none is an option are read as they stand, of every command: as many, in their order, and no value of
/// `--nodes`. An option is what begins with `-` and is longer than that, so that a lone `-` is a word like others.
pub fn plain_words_are_read_as_they_stand()
    ensures { (has_nodes : Bool) (words : List (List ℕ)) → All (λ word. is_option word ≡ false) words → given has_nodes words ≡ Some (record { value = None; plain = words }) }
{}

/// All words after the first `--` are read as they stand, whatever they begin with: so a file whose name begins with `-`
/// is named there. The `--` itself is none of the words.
pub fn words_after_two_dashes_stand()
    ensures { (has_nodes : Bool) (front rest : List (List ℕ)) → All (λ word. is_option word ≡ false) front → given has_nodes (front ++ codes "--" ∷ rest) ≡ Some (record { value = None; plain = front ++ rest }) }
{}

/// Of a command that has it, `--nodes` may stand in front of the words or after plain ones, with its value as the next
/// word or behind `=`. Its value is that text, and the other words are read as if they stood alone, for a command
/// without options: plain ones and those after `--` stand, and a second `--nodes` is refused.
pub fn nodes_leave_the_other_words()
    ensures apart { (value : List ℕ) (front rest : List (List ℕ)) → All (λ word. is_option word ≡ false) front → given true (front ++ codes "--nodes" ∷ value ∷ rest) ≡ option_map (λ (found : Given). record found { value = Some value }) (given false (front ++ rest)) }
    ensures joined { (value : List ℕ) (front rest : List (List ℕ)) → All (λ word. is_option word ≡ false) front → given true (front ++ (codes "--nodes=" ++ value) ∷ rest) ≡ option_map (λ (found : Given). record found { value = Some value }) (given false (front ++ rest)) }
{}

/// No command takes words whose first option is none that it knows: of a command without options any option but `--`,
/// of the others what is neither `--`, `--nodes` nor `--nodes=VALUE`, and a `--nodes` that no word follows.
pub fn other_options_are_refused()
    ensures none_known { (word : List ℕ) (front rest : List (List ℕ)) → All (λ w. is_option w ≡ false) front → is_option word ≡ true → bytes_eq word (codes "--") ≡ false → given false (front ++ word ∷ rest) ≡ None }
    ensures nodes_known { (word : List ℕ) (front rest : List (List ℕ)) → All (λ w. is_option w ≡ false) front → is_option word ≡ true → bytes_eq word (codes "--") ≡ false → bytes_eq word (codes "--nodes") ≡ false → value_in word ≡ None → given true (front ++ word ∷ rest) ≡ None }
    ensures no_value { (front : List (List ℕ)) → All (λ w. is_option w ≡ false) front → given true (front ++ codes "--nodes" ∷ []) ≡ None }
{}
