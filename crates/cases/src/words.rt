// Cases of texts: none, 64 and 65 bytes, words on the list and off it.
#[cfg(test)]
mod tests {
    use std::test::Fail;
    use texts::Text;
    use texts::error::NoSuchText;
    use texts::listed::ListedText;
    use texts::short::ShortText;

    #[test]
    fn short_at_its_limits(rt: HostRuntime) -> Result<(), Fail> {
        let bytes = [7u8; 65];
        let none = ShortText::from_bytes(&bytes[0..0])?;
        assert!(rt; none.same(&<ShortText as Text>::empty()));
        assert_eq!(rt; none.byte_at(0), None);
        let full = ShortText::from_bytes(&bytes[0..64])?;
        assert_eq!(rt; full.len(), 64);
        assert_eq!(rt; full.byte_at(63), Some(7));
        assert_eq!(rt; full.byte_at(64), None);
        assert!(rt; !full.same(&none));
        assert!(rt; ShortText::from_bytes(&bytes).is_err_and(|e| e.number() == 15));
        Ok(())
    }

    #[test]
    fn listed_on_the_list_and_off_it(rt: HostRuntime) -> Result<(), Fail> {
        let arm = ListedText::from_bytes(b"arm")?;
        assert_eq!(rt; arm.len(), 3);
        assert_eq!(rt; arm.byte_at(2), Some(109));
        assert_eq!(rt; arm.byte_at(3), None);
        assert!(rt; ListedText::from_bytes(b"")?.same(&<ListedText as Text>::empty()));
        assert!(rt;
            ListedText::from_bytes(b"kind")?.same(&<ListedText as Text>::from_static_str("kind"))
        );
        assert!(rt; ListedText::from_bytes(b"arms").is_err());
        Ok(())
    }

    // Only the eleven fixed words are made by name.
    #[test]
    fn words_by_name(rt: HostRuntime) {
        assert_eq!(rt;
            <ShortText as Text>::from_static_str("_dd.base_service").len(),
            16
        );
        assert_eq!(rt; <ShortText as Text>::from_static_str("belt").len(), 0);
        assert_eq!(rt;
            <ListedText as Text>::from_static_str("_dd.base_service").len(),
            16
        );
        assert_eq!(rt; <ListedText as Text>::from_static_str("belt").len(), 0);
    }
}
