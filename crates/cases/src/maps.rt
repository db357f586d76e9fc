// Cases of pair maps: the worked case, a row exactly full and one over, and rows of a table.
#[cfg(test)]
mod tests {
    use std::test::Fail;
    use texts::Text;
    use texts::error::NoSuchText;
    use texts::short::ShortText;
    use vec_map::VecMap;
    use vec_map::head::Head;
    use vec_map::table::insert_at;

    #[test]
    fn a_key_written_twice(rt: HostRuntime) -> Result<(), Fail> {
        let a = ShortText::from_bytes(b"a")?;
        let b = ShortText::from_bytes(b"b")?;
        let mut row = [(<ShortText as Text>::empty(), 0u64); 3];
        let mut map = VecMap::new(&mut row, Head::default());
        assert!(rt; map.insert(a, 1).is_ok());
        assert!(rt; map.insert(b, 2).is_ok());
        assert!(rt; map.insert(a, 3).is_ok());
        assert!(rt; map.insert(b, 4).is_err());
        assert_eq!(rt; map.len(), 3);
        assert_eq!(rt; map.get(&a).copied(), Some(3));
        map.dedup();
        assert_eq!(rt; map.len(), 2);
        assert_eq!(rt; map.get(&a).copied(), Some(3));
        assert_eq!(rt; map.get(&b).copied(), Some(2));
        assert!(rt; map.is_deduped());
        map.clear();
        assert_eq!(rt; map.get(&a).copied(), None);
        assert!(rt; map.is_deduped());
        Ok(())
    }

    // Two rows of two places.
    #[test]
    fn one_row_of_a_table(rt: HostRuntime) -> Result<(), Fail> {
        let a = ShortText::from_bytes(b"a")?;
        let mut table = [(<ShortText as Text>::empty(), 0u64); 4];
        let mut head = Head {
            count: 1,
            deduped: true,
        };
        assert!(rt; insert_at(&mut table, 2, 1, &mut head, a, 9).is_ok());
        assert_eq!(rt; head.count, 2);
        assert!(rt; !head.deduped);
        assert_eq!(rt; table[3].1, 9);
        assert_eq!(rt; table[1].1, 0);
        assert!(rt; insert_at(&mut table, 2, 1, &mut head, a, 9).is_err());
        assert!(rt; insert_at(&mut table, 2, 2, &mut head, a, 9).is_err());
        assert!(rt; insert_at(&mut table, 2, usize::MAX, &mut head, a, 9).is_err());
        Ok(())
    }
}
