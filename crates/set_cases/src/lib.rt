// Waiting sets on examples: sizes at their bounds, members put and taken, and pairs on either side of 64.
#![tactic(auto)]

#[cfg(test)]
mod tests {
    use sets::pair::Pair;
    use sets::two_level::TwoLevelSet;
    use sets::waiting::WaitingSet;
    use sets::word::WordSet;

    // A wish of at most 64 is granted, and a larger one gives 64.
    #[test]
    fn word_sizes(rt: HostRuntime) {
        let cases = [(0, 0), (1, 1), (63, 63), (64, 64), (65, 64), (255, 64)];
        for (wish, size) in cases {
            let set = WordSet::new(wish);
            assert_eq!(rt; set.size(), size);
            assert_eq!(rt; set.highest(), None);
        }
    }

    // Puts the lowest and the highest number, asks for both, takes the highest, and tries one past the end: whether the
    // set answers each step as it must.
    fn exercise<R: WaitingSet + Drop>(mut set: R, top: u8) -> bool {
        set.size() == top.saturating_add(1)
            && set.put(0)
            && set.put(top)
            && !set.put(top.saturating_add(1))
            && set.has(0)
            && set.highest() == Some(top)
            && set.take(top)
            && !set.take(top.saturating_add(1))
            && set.highest() == Some(0)
            && set.take(0)
            && set.highest().is_none()
    }

    #[test]
    fn every_make(rt: HostRuntime) {
        assert!(rt; exercise(WordSet::new(64), 63));
        assert!(rt; exercise(WordSet::new(2), 1));
        assert!(rt; exercise(TwoLevelSet::new(), 63));
        assert!(rt; exercise(Pair::new(WordSet::new(40), WordSet::new(24)), 63));
        let nested = Pair::new(Pair::new(WordSet::new(3), WordSet::new(4)), WordSet::new(5));
        assert!(rt; exercise(nested, 11));
    }

    // Sizes that add to more than 64 leave the first set alone.
    #[test]
    fn pairs_at_64(rt: HostRuntime) {
        assert!(rt; exercise(Pair::new(WordSet::new(40), WordSet::new(25)), 39));
        assert!(rt; exercise(Pair::new(TwoLevelSet::new(), WordSet::new(1)), 63));
        assert_eq!(rt; Pair::new(WordSet::new(40), WordSet::new(24)).size(), 64);
    }
}
