// Tests over several crates at once, which are no table of inputs and outputs.
#![tactic(auto)]

#[cfg(test)]
mod tests {
    use model::Node;
    use pathlog::{Fed, FeedRefused, feed};
    use paths::{Paths, Place};
    use refusal::{Layer, Refusal};
    use settings::Settings;
    use std::alloc::{AllocError, Global};
    use std::test::Fail;
    use summary::{Listing, Summary};

    const SLOTS: usize = 64;

    fn table(heap: Global) -> Result<Vec<Node<Place>>, AllocError> {
        vec![in heap; Node::vacant(Place {
            offset: 0,
            length: 0
        }); SLOTS]
    }

    // Two sites side by side, each with a summary of its own. The small site's camera backup is nearly all of its
    // traffic and nothing beside the large site's total: it is listed, since the share is of the one site's total.
    #[test]
    fn the_share_is_of_the_one_sites_total(rt: HostRuntime) -> Result<(), Fail> {
        let settings = Settings::new(10, 200)?;
        let large_paths = Paths::new(b"/shop/a 900000\n/shop/b 90000\n");
        let small_paths = Paths::new(b"/till 5\n/camera/backup 95\n");
        let mut large_table = table(rt.alloc())?;
        let mut small_table = table(rt.alloc())?;
        let mut large = Summary::open(settings, large_table.as_mut_slice());
        let mut small = Summary::open(settings, small_table.as_mut_slice());
        let large_fed = feed(&large_paths, &mut large, 0).is_ok();
        let small_fed = feed(&small_paths, &mut small, 0).is_ok();
        assert!(rt; large_fed && small_fed && large.total() == 990_000 && small.total() == 100);
        let mut listing = Listing::open(small);
        let row = listing
            .first(&small_paths)
            .ok_or("the small site lists nothing")?;
        assert_eq!(rt; small_paths.part(row.key), b"/camera/backup".as_slice());
        assert!(rt; row.discounted == 95 && 1000 * row.discounted < 200 * large.total());
        Ok(())
    }

    // A feed that is refused at its third line, and one that is taken up at the text's end.
    #[test]
    fn a_refused_feed_names_its_line(rt: HostRuntime) -> Result<(), Fail> {
        let paths = Paths::new(b"/a 3\n/b 4\nc 5\n");
        let mut nodes = table(rt.alloc())?;
        let mut summary = Summary::open(Settings::new(10, 200)?, nodes.as_mut_slice());
        let stop = FeedRefused {
            refusal: Refusal::NoLeadingSlash,
            layer: Layer::Reader,
            offset: 10,
            counted: 2,
        };
        assert_eq!(rt; feed(&paths, &mut summary, 0), Err(stop));
        assert_eq!(rt;
            feed(&paths, &mut summary, 14),
            Ok(Fed {
                counted: 0,
                offset: 14,
            })
        );
        let late = FeedRefused {
            refusal: Refusal::StartPastEnd,
            layer: Layer::Reader,
            offset: 15,
            counted: 0,
        };
        assert_eq!(rt; feed(&paths, &mut summary, 15), Err(late));
        assert_eq!(rt; summary.total(), 7);
        Ok(())
    }
}
