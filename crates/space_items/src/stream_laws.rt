// Laws of the items of the extent tree and of the checksum tree, each the contract of a function that does nothing.
ghost use Rattle.space_items.specs.StreamLaws.{ExtentItemsFit, SumItemsFit};

/// The items of the extent tree ascend by their keys, and none is longer than a root item.
pub fn extent_items_fit()
    ensures { ExtentItemsFit }
{}

/// The items of the checksum tree ascend by their keys, and each fits into a leaf of nodes of any size.
pub fn sum_items_fit()
    ensures { SumItemsFit }
{}
