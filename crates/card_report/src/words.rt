// The words that choose a measure and a reducer.
ghost use Rattle.std.specs.Prelude.{◌≡◌, true, Some, None, codes, ◌≢◌};
ghost use Rattle.card_report.specs.declared.words.Words.{Words};

// Which of the words stand on the command line: two flags, for each word stands there or not, whatever the other does.
#[derive(Clone, Copy, Default)]
pub struct Words {
    // memory in place of ticks
    pub memory: bool,
    // merge in place of keep
    pub merge: bool,
}

impl Words {
    // With one word more; none if it is no such word.
    pub fn with(self, word: &str) -> Option<Words>
        ensures memory { word.now ≡ codes "memory" → result ≡ Some (record { memory = true; merge = self.merge }) }
        ensures merge { word.now ≡ codes "merge" → result ≡ Some (record { memory = self.memory; merge = true }) }
        ensures other { (word.now ≢ codes "memory") → (word.now ≢ codes "merge") → result ≡ None }
    {
        match word {
            "memory" => Some(Words {
                memory: true,
                ..self
            }),
            "merge" => Some(Words {
                merge: true,
                ..self
            }),
            _ => None,
        }
    }
}
