// A law of the list of names.
ghost use Rattle.std.specs.Prelude.{◌≡◌, ◌∷◌, ◌++◌, [], ℕ, List, true};
ghost use Rattle.std.specs.List.{list_all};
ghost use Rattle.serde_json.specs.Data.{array};
ghost use Rattle.serde_json.specs.Written.{compact_text};
ghost use Rattle.result_keeper.specs.ProjectName.{is_project_name};
ghost use Rattle.desk_responses.specs.Names.{names_of, texts_of};

/// The list of names of projects is the compact text of their JSON array, and a line feed.
pub fn names_are_json()
    ensures { (names : List (List ℕ)) → list_all is_project_name names ≡ true → names_of names
        ≡ compact_text (array (texts_of names)) ++ 10 ∷ [] }
{}
