// Comparing sheets, and counting what they say.
use machine::{Answer, Success, Verdict};
use program_output::{same, say};

// How many batches are made.
pub const BATCHES: u64 = 12000;

// How often the sheets differ, and how often the verdict is not the sheet's.
#[derive(Clone, Copy)]
pub struct Differences {
    pub sheets: u64,
    pub verdicts: u64,
}

// What was counted: sheets by what they say, with a place for each number of rounds or of a refusal.
#[derive(Clone, Copy)]
pub struct Tally {
    nonempty: [u64; 40],
    empty: [u64; 40],
    refused: [u64; 10],
    repeated: u64,
    gaps: u64,
    strikes: u64,
    of_one: Differences,
    pairs: u64,
    of_pairs: Differences,
}

// The number at the start of a text.
fn number(text: &[u8]) -> usize {
    text.iter()
        .take_while(|b| b.is_ascii_digit())
        .fold(0usize, |n, b| {
            n.saturating_mul(10)
                .saturating_add(usize::from(b.wrapping_sub(b'0')))
        })
}

// Adds one to the count at a place, where there is one.
fn add(counts: &mut [u64], k: usize) {
    if let Some(n) = counts.get_mut(k) {
        *n = n.wrapping_add(1);
    }
}

// The lines of the counts that are not 0.
fn report_counts(rt: &impl Print, word: &str, counts: &[u64]) {
    for (k, n) in counts.iter().enumerate() {
        if *n > 0 {
            let _ = println!(rt; "{word} {k}: {n}");
        }
    }
}

// Does the sheet say the verdict, or the refusal's number?
fn says(sheet: &[u8], answer: Answer) -> bool {
    match answer {
        Ok(Success::Decided(Verdict::NonEmpty)) => sheet.starts_with(b"verdict nonempty "),
        Ok(Success::Decided(Verdict::Empty)) => sheet.starts_with(b"verdict empty "),
        Err(refusal) => sheet
            .strip_prefix(b"refused ")
            .is_some_and(|rest| number(rest) == refusal.cause as usize),
        _ => false,
    }
}

impl Differences {
    fn none() -> Differences {
        Differences {
            sheets: 0,
            verdicts: 0,
        }
    }

    // Compares two sheets, and a verdict with the second; says whether the sheets are the same.
    fn tell(&mut self, ours: &[u8], theirs: &[u8], verdict: Answer) -> bool {
        if !says(theirs, verdict) {
            self.verdicts = self.verdicts.wrapping_add(1);
        }
        if same(ours, theirs) {
            return true;
        }
        self.sheets = self.sheets.wrapping_add(1);
        false
    }
}

impl Tally {
    pub fn new() -> Tally {
        Tally {
            nonempty: [0; 40],
            empty: [0; 40],
            refused: [0; 10],
            repeated: 0,
            gaps: 0,
            strikes: 0,
            of_one: Differences::none(),
            pairs: 0,
            of_pairs: Differences::none(),
        }
    }

    // Counts what a sheet says.
    fn count(&mut self, sheet: &[u8]) {
        if let Some(rest) = sheet.strip_prefix(b"refused ") {
            add(&mut self.refused, number(rest));
        }
        if let Some(rest) = sheet.strip_prefix(b"verdict empty rounds ") {
            add(&mut self.empty, number(rest));
        }
        if let Some(rest) = sheet.strip_prefix(b"verdict nonempty rounds ") {
            add(&mut self.nonempty, number(rest));
        }
    }

    // Counts a batch that was tried before.
    pub fn count_repeated(&mut self) {
        self.repeated = self.repeated.wrapping_add(1);
    }

    // Counts a batch in which a set mixed only with its gaps, or struck states took a step away.
    pub fn count_special(&mut self, sheet: plain::Written) {
        if sheet.by_gap {
            self.gaps = self.gaps.wrapping_add(1);
        }
        if sheet.by_strike {
            self.strikes = self.strikes.wrapping_add(1);
        }
    }

    // Compares the sheets of one batch, and counts what they say; says whether they are the same.
    pub fn tell(&mut self, ours: &[u8], theirs: &[u8], verdict: Answer) -> bool {
        self.count(ours);
        self.of_one.tell(ours, theirs, verdict)
    }

    // Compares the sheets of two batches, which are to be told different.
    pub fn tell_pair(&mut self, ours: &[u8], theirs: &[u8], verdict: Answer) {
        self.pairs = self.pairs.wrapping_add(1);
        self.of_pairs.tell(ours, theirs, verdict);
    }

    fn report_numbers(&self, rt: &impl Print) {
        let tried = BATCHES.wrapping_sub(self.repeated);
        let _ = println!(rt; "passed over, as tried before: {}", self.repeated);
        let _ = println!(rt; "tried, no two the same: {tried}");
        let _ = println!(rt; "with a set that mixes only with its gaps: {}", self.gaps);
        let _ = println!(rt;
            "with a step that struck states take away: {}",
            self.strikes
        );
    }

    fn report_differences(&self, rt: &impl Print) {
        let _ = println!(rt; "different: {}", self.of_one.sheets);
        let _ = println!(rt; "other verdicts: {}", self.of_one.verdicts);
        let _ = println!(rt; "pairs of different batches: {}", self.pairs);
        let _ = println!(rt; "told different: {}", self.of_pairs.sheets);
        let _ = println!(rt; "with other verdicts: {}", self.of_pairs.verdicts);
    }

    // Writes what was counted.
    pub fn report(&self, rt: &impl Print) {
        report_counts(rt, "nonempty, rounds", &self.nonempty);
        report_counts(rt, "empty, rounds", &self.empty);
        report_counts(rt, "refused", &self.refused);
        self.report_numbers(rt);
        self.report_differences(rt);
    }
}

// Shows a difference: the batch and both sheets.
pub fn show(rt: &impl Print, batch: &[u8], ours: &[u8], theirs: &[u8]) {
    program_output::say_hex(rt, batch);
    say(rt, b"\nthe engine's sheet:\n");
    say(rt, ours);
    say(rt, b"the plain search's sheet:\n");
    say(rt, theirs);
}
